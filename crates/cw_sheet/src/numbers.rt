ghost use Rattle.std.specs.Prelude.{◌≡◌, ◌≤◌, ◌<◌, ◌+◌, ◌^◌, ◌==◌, ◌↔◌, true, IsTrue, length, drop, slice_index, OnOk, IfOk, SomeIff, pos, neg_ℤ};
ghost use Rattle.std.specs.Char.{is_ascii_digit};
ghost use Rattle.std.specs.List.{AllPass, list_all};
ghost use Rattle.cw_text.specs.Lexemes.{begins_by, value_of_digits};
ghost use Rattle.cw_sheet.specs.Items.{Place, are_digits, is_numeral, judged, value_of_numeral};
ghost use Rattle.cw_sheet.specs.Numerals.{is_written, is_written_below, is_written_value};
ghost use Rattle.cw_sheet.specs.Taking.{judgement};

use crate::cursor::Cursor;
use crate::{SheetFault, SheetKind};

// The most that a count may be.
const MOST: u64 = 100_000_000;

// Whether all bytes of an item are digits.
fn all_digits(item: &[u8]) -> bool
    ensures { result ≡ list_all is_ascii_digit item.now }
{
    item.iter().all(|byte| byte.is_ascii_digit())
}

// Whether an item has digits and nothing else.
#[tactic(auto, using(crate::proofs::Numerals::are_digits_is, crate::proofs::Numerals::are_digits_none))]
fn are_digits(item: &[u8]) -> bool
    ensures { result ≡ are_digits item.now }
{
    !item.is_empty() && all_digits(item)
}

// Whether an item begins with a minus sign.
fn is_signed(item: &[u8]) -> bool
    ensures { result ≡ begins_by (λ c. c == 45) item.now }
{
    item.first().is_some_and(|byte| *byte == b'-')
}

// What is behind the first byte.
fn behind_sign(item: &[u8]) -> &[u8]
    requires { 0 < length item.now }
    ensures { result.now ≡ drop 1 item.now }
{
    let (_, digits) = item.split_at(1);
    digits
}

// Whether an item spells a number, in whatever way.
#[tactic(auto, using(crate::proofs::Cursors::sign_begins, crate::proofs::Numerals::signed_numeral, crate::proofs::Numerals::unsigned_numeral))]
fn is_numeral(item: &[u8]) -> bool
    ensures { result ≡ is_numeral item.now }
{
    if is_signed(item) {
        return are_digits(behind_sign(item));
    }
    are_digits(item)
}

// The value of `digits`, if it fits a `u64`.
#[tactic(auto, using(cw_text::proofs::Digits::value_on_next))]
fn value_of_digits(digits: &[u8]) -> Option<u64>
    requires { AllPass is_ascii_digit digits.now }
    ensures { SomeIff result (value_of_digits digits.now < 2 ^ 64) (value_of_digits digits.now) }
{
    let mut value: u64 = 0;
    for digit in digits {
        value = value.checked_mul(10)?.checked_add(u64::from(digit - b'0'))?;
    }
    Some(value)
}

// Whether an item begins with a zero that is not all of it.
fn has_leading_zero(item: &[u8]) -> bool
    ensures { IsTrue result ↔ ((1 < length item.now) × (slice_index item.now 0 ≡ 48)) }
{
    item.len() > 1 && item[0] == b'0'
}

// The number that an item spells, if it is spelled as it is written and fits a `u64`.
fn written_number(item: &[u8]) -> Option<u64>
    ensures { SomeIff result (is_written item.now ≡ true) (value_of_digits item.now) }
{
    if !are_digits(item) {
        return None;
    }
    if has_leading_zero(item) {
        return None;
    }
    value_of_digits(item)
}

// The value that is `magnitude` below zero, if it is one and fits.
fn below_zero(magnitude: u64) -> Option<i64>
    ensures { SomeIff result ((0 < magnitude) × (magnitude ≤ 2 ^ 63)) (neg_ℤ (pos magnitude)) }
{
    if magnitude == 0 || magnitude > 1 << 63 {
        return None;
    }
    Some(-1 - (magnitude - 1) as i64)
}

// The value that an item spells, if it is spelled as it is written and fits an `i64`.
fn written_value(item: &[u8]) -> Option<i64>
    ensures { SomeIff result (is_written_value item.now ≡ true) (value_of_numeral item.now) }
{
    if is_signed(item) {
        return below_zero(written_number(behind_sign(item))?);
    }
    let number = written_number(item)?;
    if number > i64::MAX as u64 {
        return None;
    }
    Some(number as i64)
}

// The number that an item spells, at most `most`, or what is wrong with it.
fn number_of(item: &[u8], most: u64) -> Result<u64, SheetKind>
    ensures read { (p : Place) → judged item.now (is_written_below (most + 1) item.now) (value_of_digits item.now) p ≡ judgement result p }
    ensures low { IfOk result (λ n. n ≤ most) }
{
    if !is_numeral(item) {
        return Err(SheetKind::Unexpected);
    }
    let Some(number) = written_number(item) else {
        return Err(SheetKind::BadNumber);
    };
    if number > most {
        return Err(SheetKind::BadNumber);
    }
    Ok(number)
}

// The value that an item spells, or what is wrong with it.
fn value_of(item: &[u8]) -> Result<i64, SheetKind>
    ensures { (p : Place) → judged item.now (is_written_value item.now) (value_of_numeral item.now) p ≡ judgement result p }
{
    if !is_numeral(item) {
        return Err(SheetKind::Unexpected);
    }
    match written_value(item) {
        Some(value) => Ok(value),
        None => Err(SheetKind::BadNumber),
    }
}

impl Cursor<'_> {
    ghost use Rattle.cw_sheet.specs.Items.{count, first_number, first_number32, first_value, number, number32, number64, value};
    ghost use Rattle.cw_sheet.specs.Taking.{outcome, place_of};

    // Takes a number, at most `most`.
    fn first_number(&mut self, most: u64) -> Result<u64, SheetFault>
        ensures taken { first_number (most + 1) (place_of self.old) ≡ outcome result (place_of self.new) }
        ensures low { IfOk result (λ n. n ≤ most) }
        ensures no_longer { length self.new.rest.now ≤ length self.old.rest.now }
    {
        let item = self.item();
        match number_of(item, most) {
            Ok(number) => Ok(number),
            Err(kind) => Err(self.fault(kind)),
        }
    }

    // Takes a space and a number, at most `most`.
    fn number(&mut self, most: u64) -> Result<u64, SheetFault>
        ensures taken { number (most + 1) (place_of self.old) ≡ outcome result (place_of self.new) }
        ensures low { IfOk result (λ n. n ≤ most) }
        ensures shorter { OnOk result (length self.new.rest.now < length self.old.rest.now) }
    {
        self.space()?;
        self.first_number(most)
    }

    pub fn first_number32(&mut self) -> Result<u32, SheetFault>
        ensures { first_number32 (place_of self.old) ≡ outcome result (place_of self.new) }
    {
        let number = self.first_number(u64::from(u32::MAX))?;
        Ok(number as u32)
    }

    pub fn number32(&mut self) -> Result<u32, SheetFault>
        ensures taken { number32 (place_of self.old) ≡ outcome result (place_of self.new) }
        ensures shorter { OnOk result (length self.new.rest.now < length self.old.rest.now) }
    {
        let number = self.number(u64::from(u32::MAX))?;
        Ok(number as u32)
    }

    pub fn number64(&mut self) -> Result<u64, SheetFault>
        ensures taken { number64 (place_of self.old) ≡ outcome result (place_of self.new) }
        ensures shorter { OnOk result (length self.new.rest.now < length self.old.rest.now) }
    {
        self.number(u64::MAX)
    }

    /// Takes a space and how many there are of something.
    pub fn count(&mut self) -> Result<usize, SheetFault>
        ensures taken { count (place_of self.old) ≡ outcome result (place_of self.new) }
        ensures few { IfOk result (λ n. n ≤ 100000000) }
    {
        let count = self.number(MOST)?;
        Ok(count as usize)
    }

    // Takes a value.
    fn first_value(&mut self) -> Result<i64, SheetFault>
        ensures taken { first_value (place_of self.old) ≡ outcome result (place_of self.new) }
        ensures no_longer { length self.new.rest.now ≤ length self.old.rest.now }
    {
        let item = self.item();
        match value_of(item) {
            Ok(value) => Ok(value),
            Err(kind) => Err(self.fault(kind)),
        }
    }

    /// Takes a space and a value.
    pub fn value(&mut self) -> Result<i64, SheetFault>
        ensures taken { value (place_of self.old) ≡ outcome result (place_of self.new) }
        ensures shorter { OnOk result (length self.new.rest.now < length self.old.rest.now) }
    {
        self.space()?;
        self.first_value()
    }
}
