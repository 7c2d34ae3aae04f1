// The commands, as the batch's description has them, each with its words by their names.
use crate::stop::Stop;
use measure::HowFar;
use question::Mark;
use words::Word;

// Bytes that follow to a place in a map, which gets another length.
#[derive(Clone, Copy)]
pub struct Load {
    pub map: u8,
    pub place: u32,
    pub count: u32,
    pub length: u32,
}

// A question after the mark, in a room of `size` bytes, which hold `fill` and the bytes that follow from it.
#[derive(Clone, Copy)]
pub struct Ask {
    pub map: u8,
    pub fill: u8,
    pub x: i32,
    pub y: i32,
    pub k: u32,
    pub badge: u32,
    pub size: u32,
}

// A question in text, whose bytes follow.
#[derive(Clone, Copy)]
pub struct Text {
    pub map: u8,
    pub count: u32,
}

// A point and a box, to be measured.
#[derive(Clone, Copy)]
pub struct Measure {
    pub x: i32,
    pub y: i32,
    pub xlow: i32,
    pub xhigh: i32,
    pub ylow: i32,
    pub yhigh: i32,
}

#[derive(Clone, Copy)]
pub enum Command {
    Load(Load),
    // The check of a map.
    Check(u8),
    Mark(Mark),
    Ask(Ask),
    Text(Text),
    Measure(Measure),
    // The plain distance of a squared one.
    Root(u64),
}

// A head is the command's letter, a map's number, a byte to fill the room from, a byte that says nothing, and the words.
impl TryFrom<[u8; 32]> for Command {
    type Error = Stop;

    fn try_from(head: [u8; 32]) -> Result<Command, Stop> {
        let [kind, map, fill, ..] = head;
        match kind {
            b'M' => Ok(Command::Load(Load {
                map,
                place: u32::read(&head, 4),
                count: u32::read(&head, 8),
                length: u32::read(&head, 12),
            })),
            b'C' => Ok(Command::Check(map)),
            b'K' => Ok(Command::Mark(Mark {
                far: HowFar(u64::read(&head, 4)),
                bay: u32::read(&head, 12),
            })),
            b'A' => Ok(Command::Ask(Ask {
                map,
                fill,
                x: i32::read(&head, 4),
                y: i32::read(&head, 8),
                k: u32::read(&head, 12),
                badge: u32::read(&head, 16),
                size: u32::read(&head, 20),
            })),
            b'T' => Ok(Command::Text(Text {
                map,
                count: u32::read(&head, 4),
            })),
            b'D' => Ok(Command::Measure(Measure {
                x: i32::read(&head, 4),
                y: i32::read(&head, 8),
                xlow: i32::read(&head, 12),
                xhigh: i32::read(&head, 16),
                ylow: i32::read(&head, 20),
                yhigh: i32::read(&head, 24),
            })),
            b'R' => Ok(Command::Root(u64::read(&head, 4))),
            _ => Err(Stop::Over),
        }
    }
}
