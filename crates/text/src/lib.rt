// Text put into a lent output, from its front, and a text that is a whole output.
#![tactic(auto)]

ghost use Rattle.std.specs.Prelude.{◌≡◌, [], ◌∷◌};
ghost use Rattle.definitions.specs.Answers.{answer_reply, counted};
ghost use Rattle.definitions.specs.Texts.{decimal};
ghost use Rattle.basics.specs.Outputs.{Delivered};
ghost use Rattle.text.specs.Cursors.{Begins, HasRoom, Puts};

use decimals::decimal_length;
use definitions::{Refusal, Refused};

// A lent output, and where the next text is put: behind the bytes put so far.
#[derive(Drop)]
pub struct Output<'a> {
    bytes: &'a mut [u8],
    at: usize,
}

impl<'a> Output<'a> {
    pub fn new(bytes: &'a mut [u8]) -> Output<'a>
        ensures { Begins bytes.entry result }
    {
        Output { bytes, at: 0 }
    }

    // How many bytes have been put.
    pub fn written(&self) -> usize
        ensures { result ≡ self.now.at }
    {
        self.at
    }

    // One byte. Like the two below it is a part of its caller, which mostly keeps the position in a register.
    #[inline(always)]
    pub fn put_byte(&mut self, byte: u8)
        requires { HasRoom self.old (byte ∷ []) }
        ensures { Puts self.old (byte ∷ []) self.new }
    {
        self.bytes[self.at] = byte;
        self.at += 1;
    }

    // A text, byte by byte: `copy_from_slice` would be compiled to a call of memmove, which the host doesn't supply. The position
    // is moved once, behind the loop: moved byte by byte it would be loaded and stored for each.
    #[inline(always)]
    pub fn put(&mut self, text: &[u8])
        requires { HasRoom self.old text.now }
        ensures { Puts self.old text.now self.new }
    {
        let mut at = self.at;
        for &byte in text {
            self.bytes[at] = byte;
            at += 1;
        }
        self.at += text.len();
    }

    // A number with the digits that it needs, from the last to the first.
    #[inline(always)]
    pub fn put_decimal(&mut self, n: usize)
        requires { HasRoom self.old (decimal n) }
        ensures { Puts self.old (decimal n) self.new }
    {
        let end = self.at + decimal_length(n);
        let mut place = end;
        let mut high = n;
        while 10 <= high {
            place -= 1;
            self.bytes[place] = b'0' + (high % 10) as u8;
            high /= 10;
        }
        self.bytes[self.at] = b'0' + high as u8;
        self.at = end;
    }
}

// A text written whole or not at all.
pub fn deliver(text: &[u8], out: &mut [u8]) -> Result<usize, Refused>
    ensures { Delivered (counted [] text.now) out.old out.new (answer_reply result) }
{
    if out.len() < text.len() {
        return Err(Refusal::NoRoom.into());
    }
    Output::new(out).put(text);
    Ok(text.len())
}
