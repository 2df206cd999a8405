// The words of the lines. Each is told by its first letter, and the class by the digit at column 6 of `write 2` and `axis  2`.

#[derive(Clone, Copy, PartialEq, Eq)]
pub(crate) enum Word {
    Telegram,
    Block,
    Write(Class),
    Axis(Class),
    Given,
    First,
    Reading,
    Number,
    Preset,
    Change,
    Hold,
    List,
    Velocity,
    Serial,
    Exchange,
    Measured,
    Diagnose,
    Keep,
}

#[derive(Clone, Copy, PartialEq, Eq)]
pub(crate) enum Class {
    Class2,
    Class4,
}

impl Word {
    pub(crate) fn of(columns: &[u8; 8]) -> Option<Word> {
        let class = if columns[6] == b'2' {
            Class::Class2
        } else {
            Class::Class4
        };
        match columns[0] {
            b't' => Some(Word::Telegram),
            b'b' => Some(Word::Block),
            b'w' => Some(Word::Write(class)),
            b'a' => Some(Word::Axis(class)),
            b'g' => Some(Word::Given),
            b'f' => Some(Word::First),
            b'r' => Some(Word::Reading),
            b'n' => Some(Word::Number),
            b'p' => Some(Word::Preset),
            b'c' => Some(Word::Change),
            b'h' => Some(Word::Hold),
            b'l' => Some(Word::List),
            b'v' => Some(Word::Velocity),
            b's' => Some(Word::Serial),
            b'e' => Some(Word::Exchange),
            b'm' => Some(Word::Measured),
            b'd' => Some(Word::Diagnose),
            b'k' => Some(Word::Keep),
            _ => None,
        }
    }
}
