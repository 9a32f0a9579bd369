ghost use Rattle.std.specs.Prelude.{◌≡◌, ◌≤◌, ◌<◌, ◌+◌, ◌^◌, ◌||◌, length, take, OnOk};
ghost use Rattle.cw_text.specs.Lexemes.{begins_by};
ghost use Rattle.cw_sheet.specs.Items.{first_item, is_newline, is_space};
ghost use Rattle.cw_sheet.specs.Reading.{newlines};

use crate::{SheetFault, SheetKind};

/// A place in the text of a sheet: the number of its line, and the bytes from there on.
#[derive(Clone, Copy)]
pub struct Cursor<'a> {
    line: u32,
    rest: &'a [u8],
    ghost short: { line + length rest.now ≤ 2 ^ 26 + 1 },
}

// Whether an item ends before `byte`.
fn is_break(byte: u8) -> bool
    ensures { result ≡ (is_space byte || is_newline byte) }
{
    byte == b' ' || byte == b'\n'
}

// The length of the item that `text` begins with.
fn item_len(text: &[u8]) -> usize
    ensures exact { result ≡ length (first_item text.now) }
    ensures fits { result ≤ length text.now }
{
    text.iter().take_while(|byte| !is_break(**byte)).count()
}

/// The number of newlines in `text`.
pub fn newlines(text: &[u8]) -> usize
    ensures { result ≡ newlines text.now }
{
    text.iter().filter(|byte| **byte == b'\n').count()
}

// Each call that returns a fault leaves a cursor that is not used again.
impl<'a> Cursor<'a> {
    ghost use Rattle.cw_sheet.specs.Items.{behind, item, newline, next_item, next_word, space, took, word};
    ghost use Rattle.cw_sheet.specs.Reading.{behind_lines};
    ghost use Rattle.cw_sheet.specs.Taking.{LeadsTo, outcome, place_of};

    /// The first place of a text.
    pub fn new(text: &'a [u8]) -> Cursor<'a>
        requires { length text.now ≤ 2 ^ 26 }
        ensures { place_of result ≡ record { line = 1; text = text.now } }
    {
        Cursor {
            line: 1,
            rest: text,
        }
    }

    pub fn line(&self) -> u32
        ensures line { result ≡ (place_of self.now).line }
        ensures short { result ≤ 2 ^ 26 + 1 }
    {
        self.line
    }

    /// How many bytes are left.
    pub fn len(&self) -> usize
        ensures { result ≡ length (place_of self.now).text }
    {
        self.rest.len()
    }

    pub fn is_at_space(&self) -> bool
        ensures { result ≡ begins_by is_space (place_of self.now).text }
    {
        self.rest.first().is_some_and(|byte| *byte == b' ')
    }

    fn is_at_newline(&self) -> bool
        ensures { result ≡ begins_by is_newline (place_of self.now).text }
    {
        self.rest.first().is_some_and(|byte| *byte == b'\n')
    }

    /// A fault on this line.
    pub fn fault(&self, kind: SheetKind) -> SheetFault
        ensures { result ≡ record { kind = kind; line = (place_of self.now).line } }
    {
        SheetFault {
            kind,
            line: self.line,
        }
    }

    // Goes behind the next `len` bytes, none of which is a newline.
    fn pass(&mut self, len: usize)
        requires { len ≤ length self.old.rest.now }
        ensures { place_of self.new ≡ behind len (place_of self.old) }
    {
        let (_, rest) = self.rest.split_at(len);
        *self = Cursor {
            line: self.line,
            rest,
        };
    }

    /// Takes a space.
    #[tactic(auto, using(crate::proofs::Cursors::space_begins))]
    pub fn space(&mut self) -> Result<(), SheetFault>
        ensures taken { space (place_of self.old) ≡ outcome result (place_of self.new) }
        ensures shorter { OnOk result (length self.new.rest.now < length self.old.rest.now) }
    {
        if !self.is_at_space() {
            return Err(self.fault(SheetKind::Unexpected));
        }
        self.pass(1);
        Ok(())
    }

    /// Takes the end of a line.
    #[tactic(auto, using(crate::proofs::Cursors::newline_begins))]
    pub fn newline(&mut self) -> Result<(), SheetFault>
        ensures { newline (place_of self.old) ≡ outcome result (place_of self.new) }
    {
        if !self.is_at_newline() {
            return Err(self.fault(SheetKind::Unexpected));
        }
        let (_, rest) = self.rest.split_at(1);
        *self = Cursor {
            line: self.line + 1,
            rest,
        };
        Ok(())
    }

    /// Takes the bytes up to the next space or newline.
    #[tactic(auto, using(crate::proofs::Cursors::item_front))]
    pub fn item(&mut self) -> &'a [u8]
        ensures taken { item (place_of self.old) ≡ took result.now (place_of self.new) }
        ensures no_longer { length self.new.rest.now ≤ length self.old.rest.now }
    {
        let (item, rest) = self.rest.split_at(item_len(self.rest));
        *self = Cursor {
            line: self.line,
            rest,
        };
        item
    }

    /// Takes this very item.
    #[tactic(auto, using(crate::proofs::Cursors::word_taken, crate::proofs::Cursors::word_other))]
    pub fn word(&mut self, spelled: &str) -> Result<(), SheetFault>
        ensures { word spelled.now (place_of self.old) ≡ outcome result (place_of self.new) }
    {
        if self.item() == spelled.as_bytes() {
            return Ok(());
        }
        Err(self.fault(SheetKind::Unexpected))
    }

    /// Takes a space and the item behind it.
    pub fn next_item(&mut self) -> Result<&'a [u8], SheetFault>
        ensures { LeadsTo result (next_item (place_of self.old)) (λ item. took item.now (place_of self.new)) }
    {
        self.space()?;
        Ok(self.item())
    }

    /// Takes a space and this very item.
    pub fn next_word(&mut self, spelled: &str) -> Result<(), SheetFault>
        ensures { next_word spelled.now (place_of self.old) ≡ outcome result (place_of self.new) }
    {
        self.space()?;
        self.word(spelled)
    }

    /// Takes `count` bytes, among which newlines count.
    pub fn bytes(&mut self, count: usize) -> &'a [u8]
        requires { count ≤ length (place_of self.old).text }
        ensures bytes { result.now ≡ take count (place_of self.old).text }
        ensures behind { place_of self.new ≡ behind_lines count (place_of self.old) }
    {
        let (bytes, rest) = self.rest.split_at(count);
        *self = Cursor {
            line: newlines(bytes) as u32 + self.line,
            rest,
        };
        bytes
    }
}
