// The lines of the bench listing. See specs/ for what each line says.
#![tactic(auto)]

ghost use Rattle.std.specs.Prelude.{◌≡◌, [], ◌∷◌, ◌++◌, ◌+◌, ◌≤◌, ◌↔◌, length, IsSome, IfSome};
ghost use Rattle.listing.specs.Text.{decimal, dash_or, space, newline, header, line, tail_line, stop_line};

use std::marker::Model;
use table::Table;

// A text of at most 48 bytes: the first `len` of `bytes`, and zeros behind them. Any bytes can be one, so it is no string of a
// library's. The longest line has 33, so columns can still be added. What writes takes the text and gives a longer one back.
#[derive(Clone, Copy)]
pub struct Text {
    bytes: [u8; Text::ROOM],
    len: usize,
}

// Contracts see the text alone, which gives the fields back, since nothing but zeros is behind it.
impl Model for Text {
    ghost use Rattle.std.specs.Prelude.{◌≡◌, ℕ, ◌-◌, ◌≤◌, List, ◌++◌, length, take, drop, replicate};
    ghost use Rattle.std.proofs.Common.{arith, take-append-drop, length-take-le};

    ghost Value = { List ℕ };

    ghost view = { λ t. take t.len t.bytes };

    ghost invariant = { λ t. (t.len ≤ 48) × (length t.bytes ≡ 48) × (drop t.len t.bytes ≡ replicate (48 - t.len) 0) };

    ghost inverse = { λ s. record { bytes = s ++ replicate (48 - length s) 0; len = length s } };

    ghost inverse_ok = { λ t h.
        let text = take t.len t.bytes in
        let len : length text ≡ t.len = length-take-le t.len t.bytes (omega (arith, h.0, h.1)) in
        let bytes : text ++ replicate (48 - length text) 0 ≡ t.bytes = rw (len, ← h.2) (take-append-drop t.len t.bytes) in
        λ i. record { bytes = bytes i; len = len i } };
}

impl Text {
    pub const ROOM: usize = 48;

    // A text of these bytes, if they fit.
    pub fn of(bytes: &[u8]) -> Option<Text>
        ensures variant { IsSome result ↔ (length bytes.now ≤ Text.ROOM) }
        ensures value { IfSome result (λ t. t ≡ bytes.now) }
    {
        if bytes.len() > Text::ROOM {
            return None;
        }
        Some(Text::blank().word(bytes))
    }

    // Its bytes, which fit into the room of one line.
    pub fn as_bytes(&self) -> &[u8]
        ensures value { result.now ≡ self.now }
        ensures fits { length result.now ≤ Text.ROOM }
    {
        &self.bytes[..self.len]
    }

    fn blank() -> Text
        ensures { result ≡ [] }
    {
        Text {
            bytes: [0; Text::ROOM],
            len: 0,
        }
    }

    fn word(mut self, s: &[u8]) -> Text
        requires { length self + length s.now ≤ 48 }
        ensures { result ≡ self ++ s.now }
    {
        let start = self.len;
        let end = start + s.len();
        self.bytes[start..end].copy_from_slice(s);
        self.len = end;
        self
    }

    // The digits in front are written first, so none has to be moved later.
    fn number(self, n: u64) -> Text
        requires { length self + length (decimal n) ≤ 48 }
        ensures { result ≡ self ++ decimal n }
    {
        let last = b'0' + (n % 10) as u8;
        if n < 10 {
            return self.word(&[last]);
        }
        self.number(n / 10).word(&[last])
    }

    // A space and a number. That a column is at most four bytes is said for those who write several.
    fn column(self, x: u8) -> Text
        requires { length self + 4 ≤ 48 }
        ensures { (result ≡ self ++ space ++ decimal x) × (length result ≤ length self + 4) }
    {
        self.word(b" ").number(u64::from(x))
    }

    #[tactic(auto, using(crate::proofs::Decimals::no_dash))]
    fn thread_column(self, x: u8) -> Text
        requires { length self + 4 ≤ 48 }
        ensures { (result ≡ self ++ space ++ dash_or x) × (length result ≤ length self + 4) }
    {
        let nobody = x == Table::NOBODY;
        if nobody {
            return self.word(b" ").word(b"-");
        }
        self.column(x)
    }
}

pub fn header() -> Text
    ensures { result ≡ header }
{
    Text::blank().word(b"n code run count\n")
}

#[tactic(auto, using(crate::proofs::Decimals::short_number))]
pub fn line(n: u64, code: u8, run: u8, count: u8) -> Text
    ensures { result ≡ line n code run count }
{
    let numbered = Text::blank().number(n);
    let answered = numbered.column(code).thread_column(run).column(count);
    answered.word(b"\n")
}

// A word and a number. A number has a column of four bytes, and the newline is one more.
fn last_line(word: &[u8], n: u8) -> Text
    requires { length word.now + 5 ≤ 48 }
    ensures { result ≡ word.now ++ space ++ decimal n ++ newline }
{
    Text::blank().word(word).column(n).word(b"\n")
}

pub fn tail_line(k: u8) -> Text
    ensures { result ≡ tail_line k }
{
    last_line(b"tail", k)
}

pub fn stop_line(n: u8) -> Text
    ensures { result ≡ stop_line n }
{
    last_line(b"stop", n)
}
