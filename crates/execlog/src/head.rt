//! The columns of the number and the time of an entry. They are kept from one entry to the next, of which mostly one
//! digit differs.
ghost use Rattle.std.specs.Prelude.{◌≡◌, ◌∷◌, ◌<◌, ◌≤◌, ◌++◌, ◌+◌, ◌-◌, ◌*◌, ◌/◌, ℕ, [], drop, length, replicate, take, true};
ghost use Rattle.execlog.specs.Rows.{IsHead, columns};

use crate::moves::{write_block, write_cells, write_text};
use crate::rows::{digit, put_column, put_millis};
use crate::sheet::WIDTH as CELLS;

/// How many bytes there is room for.
const ROOM: usize = 192;

/// Where the columns end, so that there is room for the longest, and after which there are spaces.
const END: usize = 64;

/// How many bytes are copied at once; nearly all columns are shorter.
const WIDTH: usize = 32;

/// How many bytes are copied at once for columns that are short, and eight spaces after them.
const SPACED: usize = 64;

/// The columns of a number and a time, with spaces after them.
#[derive(Clone, Copy)]
pub(crate) struct Head {
    pub(crate) number: u64,
    pub(crate) clock: u64,
    /// The number without its last digit.
    tens: u64,
    /// The number with 0 for its last digit.
    base: u64,
    room: [u8; ROOM],
    /// Where the columns begin.
    pub(crate) start: usize,
    /// Where the last digit of the number is.
    last: usize,
    ghost is_head: { IsHead number clock tens start last room },
    ghost based: { base ≡ tens * 10 },
}

/// Puts a byte in the place of another.
#[inline(always)]
fn replace(room: &mut [u8], at: usize, byte: u8)
    requires { at < length room.old }
    ensures { room.new ≡ take at room.old ++ byte ∷ drop (at + 1) room.old }
{
    room[at] = byte;
}

impl Head {
    /// The columns of a number and a time, in microseconds.
    pub(crate) fn of(number: u64, clock: u64) -> Head
        ensures number { result.number ≡ number }
        ensures clock { result.clock ≡ clock }
    {
        let mut room = [b' '; ROOM];
        let from_time = put_millis(&mut room, END, clock);
        let start = put_column(&mut room, from_time, 5, number);
        let tens = number / 10;
        Head {
            number,
            clock,
            tens,
            base: tens * 10,
            room,
            start,
            last: from_time - 1,
        }
    }

    /// Goes on to a number, if it differs in no more than the last digit, and the time is the same.
    #[inline(always)]
    fn count_to(&mut self, number: u64)
        requires least { self.old.base ≤ number }
        requires most { number - self.old.base < 10 }
        ensures number { self.new.number ≡ number }
        ensures clock { self.new.clock ≡ self.old.clock }
    {
        let last = (number - self.base) as u8;
        replace(&mut self.room, self.last, b'0' + last);
        self.number = number;
    }

    /// Goes on to a number, if it differs in no more than the last two digits, which both have, and the time is the
    /// same.
    #[inline(always)]
    fn count_by_tens(&mut self, number: u64)
        requires same { number / 10 / 10 ≡ self.old.tens / 10 }
        requires before { 0 < self.old.tens }
        requires after { 0 < number / 10 }
        ensures number { self.new.number ≡ number }
        ensures clock { self.new.clock ≡ self.old.clock }
    {
        replace(&mut self.room, self.last - 1, digit(number / 10));
        replace(&mut self.room, self.last, digit(number));
        let tens = number / 10;
        self.tens = tens;
        self.base = tens * 10;
        self.number = number;
    }

    /// Goes on to any number and time.
    #[cold]
    #[inline(never)]
    fn renew(&mut self, number: u64, clock: u64) {
        *self = Head::of(number, clock);
    }

    /// Goes on to a number and a time. If more than two digits differ, nothing is done but `in_any_case`.
    #[inline(always)]
    pub(crate) fn foresee(&mut self, number: u64, clock: u64, in_any_case: bool) {
        if clock == self.clock {
            if number >= self.base && number - self.base < 10 {
                self.count_to(number);
                return;
            }
            let tens = number / 10;
            if tens / 10 == self.tens / 10 && tens > 0 && self.tens > 0 {
                self.count_by_tens(number);
                return;
            }
        }
        if in_any_case {
            self.renew(number, clock);
        }
    }

    /// The columns.
    pub(crate) fn columns(&self) -> &[u8]
        ensures { result.now ≡ columns self.now.number self.now.clock }
    {
        &self.room[self.start..END]
    }

    /// Whether they are as short as nearly all are.
    #[inline(always)]
    pub(crate) fn is_narrow(&self) -> bool
        ensures { result ≡ true → 64 - self.now.start ≤ 32 }
    {
        END - self.start <= WIDTH
    }

    /// Writes the columns over bytes from a place on, and spaces after them, that many bytes.
    #[inline(always)]
    fn write<const N: usize>(&self, room: &mut [u8], from: usize)
        requires few { N ≤ 64 }
        requires room { from + N ≤ length room.old }
        ensures written { (k : ℕ) → 64 - self.now.start + k ≤ N → take (from + (64 - self.now.start + k)) room.new
            ≡ take from room.old ++ (columns self.now.number self.now.clock ++ replicate k 32) }
        ensures room { length room.new ≡ length room.old }
    {
        write_block::<N>(room, from, &self.room[self.start..self.start + N]);
    }

    /// Writes the columns over bytes from a place on, and after them the first cells, that many, with a text over those
    /// from a place on. The answer is where they end.
    #[inline(always)]
    pub(crate) fn write_row(
        &self,
        room: &mut [u8],
        from: usize,
        cells: &[u8; CELLS],
        at: usize,
        len: usize,
        text: &[u8],
    ) -> usize
        requires narrow { 64 - self.now.start ≤ 32 }
        requires room { from + 128 ≤ length room.old }
        requires within { at + length text.now ≤ len }
        requires few { len ≤ 96 }
        ensures end { result ≡ from + (64 - self.now.start) + len }
        ensures written { take result room.new ≡ take from room.old ++ (columns self.now.number self.now.clock
            ++ (take at cells.now ++ (text.now ++ take (len - (at + length text.now)) (drop (at + length text.now) cells.now)))) }
        ensures room { length room.new ≡ length room.old }
    {
        let wide = from + (END - self.start);
        self.write::<WIDTH>(room, from);
        write_cells(room, wide, cells);
        write_text(room, wide + at, text);
        wide + len
    }

    /// Writes the columns over bytes from a place on, and after them an empty column of a line, a text, and a line
    /// feed. The answer is where they end.
    #[inline(always)]
    pub(crate) fn write_bare(&self, room: &mut [u8], from: usize, text: &[u8]) -> usize
        requires narrow { 64 - self.now.start ≤ 32 }
        requires room { from + 128 ≤ length room.old }
        requires few { length text.now ≤ 87 }
        ensures end { result ≡ from + (64 - self.now.start) + 8 + length text.now + 1 }
        ensures written { take result room.new ≡ take from room.old ++ (columns self.now.number self.now.clock
            ++ (replicate 8 32 ++ (text.now ++ 10 ∷ []))) }
        ensures room { length room.new ≡ length room.old }
    {
        let at = from + (END - self.start) + 8;
        let end = at + text.len();
        self.write::<SPACED>(room, from);
        write_text(room, at, text);
        replace(room, end, b'\n');
        end + 1
    }
}
