// The words of a case, each with its numbers.

// What a word asks, as the head of the cases says. A word with no letter puts a byte into the book.
#[derive(Clone, Copy)]
pub(crate) enum Word {
    Put,
    LayA,
    LayB,
    Keep,
    Read,
    Nodes,
    Flows,
    Row,
    Record,
    Step,
    Add,
    Largest,
    Remove,
    Write,
    Compare,
    Check,
    Start,
    Advance,
    Area,
    Say,
    Bounds,
    View,
    List,
}

// No word begins with the letter.
#[derive(Clone, Copy)]
pub(crate) struct Unknown;

impl TryFrom<u8> for Word {
    type Error = Unknown;

    fn try_from(letter: u8) -> Result<Self, Unknown> {
        Ok(match letter {
            b'A' => Word::LayA,
            b'B' => Word::LayB,
            b'k' => Word::Keep,
            b'r' => Word::Read,
            b'N' => Word::Nodes,
            b'M' => Word::Flows,
            b'R' => Word::Row,
            b'F' => Word::Record,
            b'S' => Word::Step,
            b'a' => Word::Add,
            b'C' => Word::Largest,
            b'd' => Word::Remove,
            b'w' => Word::Write,
            b'e' => Word::Compare,
            b'c' => Word::Check,
            b's' => Word::Start,
            b'g' => Word::Advance,
            b'T' => Word::Area,
            b'?' => Word::Say,
            b'b' => Word::Bounds,
            b'v' => Word::View,
            b'l' => Word::List,
            _ => return Err(Unknown),
        })
    }
}

#[derive(Clone, Copy)]
pub(crate) struct Order {
    pub word: Word,
    // The last numbers, from the last one back.
    pub numbers: [usize; 6],
}

// The last numbers of a text, from the last one back: what is neither a digit nor a letter begins another.
fn numbers_in(text: &[u8]) -> [usize; 6] {
    // A number has up to ten digits.
    const TENTH: usize = 1_000_000_000;
    let mut numbers = [0; 6];
    for b in text {
        match b {
            b'0'..=b'9' => numbers[0] = numbers[0] % TENTH * 10 + usize::from(b - b'0'),
            b'?'.. => {}
            _ => {
                numbers.rotate_right(1);
                numbers[0] = 0;
            }
        }
    }
    numbers
}

impl Order {
    // The question mark and all bytes above it are letters; the first one says which word it is.
    pub(crate) fn of(text: &[u8]) -> Result<Self, Unknown> {
        let word = match text.iter().find(|b| b'?' <= **b) {
            Some(letter) => Word::try_from(*letter)?,
            None => Word::Put,
        };
        Ok(Order {
            word,
            numbers: numbers_in(text),
        })
    }
}
