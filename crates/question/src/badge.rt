// A badge: a 32-bit set of zones.
ghost use Rattle.std.specs.Prelude.{◌≡◌};
ghost use Rattle.question.specs.Badge.{on_badge, badge_ok};

#[derive(Clone, Copy, PartialEq, Eq)]
pub struct Badge(pub u32);

impl Badge {
    // Every zone, for service.
    pub const ALL: u32 = u32::MAX;
    // How many zones a badge that is not for service may have.
    pub const LIMIT: u32 = 8;

    // Kept (4): document 01 asks for a constructor from bits, and not for a `From`.
    pub fn from_bits(bits: u32) -> Badge
        ensures { result.0 ≡ bits }
    {
        Badge(bits)
    }

    // Whether a zone is on the badge.
    #[tactic(auto, unfolding(crate::specs::Badge::on_badge))]
    pub fn contains(self, zone: u8) -> bool
        ensures { result ≡ on_badge self.0 zone }
    {
        if 32 <= zone {
            return false;
        }
        (self.0 >> zone) % 2 == 1
    }

    // Whether the badge may ask: one zone to eight, or all of them.
    #[tactic(auto, unfolding(crate::specs::Badge::badge_ok))]
    pub fn accepted(self) -> bool
        ensures { result ≡ badge_ok self.0 }
    {
        let zones = self.0.count_ones();
        (1..=Badge::LIMIT).contains(&zones) | (self.0 == Badge::ALL)
    }
}
