// Interference on lines that lie side by side in one word. Of each step of a plan l, counted from the plan's end, a line says how many
// conflicts a choice among the steps from there on reaches, over the last steps of a plan h. It is kept by its rises: how much more it
// says of a step than of the one before it. Behind its last place a line has an end, at which 63 rises stand at first; what is said of
// the last place is taken from them. A rise is a number of six bits, and there is a word for each of them: so one step of each h is
// worked in at all steps of l at once.
ghost use Rattle.std.specs.Prelude.{◌≡◌, ℕ, ◌+◌, ◌<◌, ◌≤◌, length};
ghost use Rattle.trade.specs.Limits.{most_steps};
ghost use Rattle.trade.specs.Bytes.{bit};
ghost use Rattle.trade.specs.Interference.{Matrix, worst_path};
ghost use Rattle.figures.specs.Rises.{lane_at, rise_at, over, Shifts, Says, Low, Unmarked, Ends, Marks};

// The bits of the rises. Each has its name, and no place in an array: the steps of a carry read them one after the other, so a loop over
// them would be no plainer.
#[derive(Clone, Copy)]
pub(crate) struct Rises {
    pub ones: u64,
    pub twos: u64,
    pub fours: u64,
    pub eights: u64,
    pub sixteens: u64,
    pub thirties: u64,
}

// The rises, one more at some places and one less at others. What is carried from bit to bit goes up where it was set, and down where it was
// not.
fn shifted(line: Rises, up: u64, down: u64) -> Rises
    ensures { Shifts line up down result }
{
    let first = up | down;
    let second = first & (line.ones ^ down);
    let third = second & (line.twos ^ down);
    let fourth = third & (line.fours ^ down);
    let fifth = fourth & (line.eights ^ down);
    let sixth = fifth & (line.sixteens ^ down);
    Rises {
        ones: line.ones ^ first,
        twos: line.twos ^ second,
        fours: line.fours ^ third,
        eights: line.eights ^ fourth,
        sixteens: line.sixteens ^ fifth,
        thirties: line.thirties ^ sixth,
    }
}

// Marks worked in. A mark lifts its line by one, from its place on as far as the line is level: so goes the carry of a sum, from the marks
// through the places that do not rise. At the end of the line it ends.
fn worked(line: Rises, marks: u64) -> Rises
    ensures { (n lanes : ℕ) (W : ℕ → ℕ → ℕ) → lane_at n lanes ≤ 64 → Low n lanes W → Unmarked n lanes marks → Says n lanes line W → Says n lanes result (λ k. over (W k) (λ b. bit marks (lane_at n k + b))) }
{
    let rising = line.ones | line.twos | line.fours | line.eights | line.sixteens | line.thirties;
    let through = marks | !rising;
    let sum = through.wrapping_add(marks);
    let up = marks & (marks ^ sum);
    let down = sum & (sum ^ through);
    shifted(line, up, down)
}

// The first so many words of marks worked in, the last of them first, on lines that have nothing yet.
pub(crate) fn worked_out(words: &[u64], count: usize, ends: u64) -> Rises
    requires { (count ≤ length words.now) × (count ≤ most_steps) }
    ensures { (n lanes : ℕ) (M : ℕ → Matrix) → lane_at n lanes ≤ 64 → Ends n lanes ends → Marks n lanes count M words.now → (k : ℕ) → k < lanes → rise_at result (lane_at n k + n) + worst_path (M k) n count ≡ 63 }
{
    let mut line = Rises {
        ones: ends,
        twos: ends,
        fours: ends,
        eights: ends,
        sixteens: ends,
        thirties: ends,
    };
    for j in (0..count).rev() {
        line = worked(line, words[j]);
    }
    line
}

// What has been taken from the rises at an end.
pub(crate) fn taken(line: Rises, end: usize) -> u32
    requires { end < 64 }
    ensures { rise_at line end + result ≡ 63 }
{
    let ones = (line.ones >> end) % 2;
    let twos = (line.twos >> end) % 2;
    let fours = (line.fours >> end) % 2;
    let eights = (line.eights >> end) % 2;
    let sixteens = (line.sixteens >> end) % 2;
    let thirties = (line.thirties >> end) % 2;
    (63 - (ones + 2 * twos + 4 * fours + 8 * eights + 16 * sixteens + 32 * thirties)) as u32
}
