ghost use Rattle.std.specs.Prelude.{◌≡◌, ◌≤◌, ◌<◌, ◌^◌, ◌+ℤ◌, ◌*ℤ◌, ◌-ℤ◌, ◌/◌, ◌++◌, ℕ, ℤ, pos, neg_ℤ, false, codes, Some, None, IfOk, IfSome, MatchOption, IsTrue, ◌↔◌, length, take, drop, ◌∷◌, []};
ghost use Rattle.std.specs.Str.Parse.{AllDigits};
ghost use Rattle.std.specs.Result.{result_ok};
ghost use Rattle.std.specs.Net.Grammar.{Parses};
ghost use Rattle.jiff_core.specs.Calendar.{IsBetween, days_from_civil};
ghost use Rattle.jiff_core.specs.Date.{epoch_day};
ghost use Rattle.jiff_fmt.specs.Text.{datetime_text};
ghost use Rattle.scalar_text.specs.Time.{IsExactly, IsTwoDigits, part, IsDayOf, IsFullDate, IsClock, IsSeparator, IsNoDigitAhead, behind_colon, IsShift, IsOffset, IsFractionTail, IsTail, IsTimeText, time_in, IsPrintedTime, time_text};

use base_types::{OutOfMemory, Text, read_digits};
use jiff_core::civil::{Date, DateTime, Time};
use jiff_fmt::temporal::DateTimePrinter;
use std::alloc::Global;

/// Why a text gives no time.
#[derive(Clone, Copy, Debug, PartialEq, Eq)]
pub enum TimeFault {
    /// The text has no value by the rule of times.
    Bad,
}

// From 0001-01-01 to 1970-01-01.
const EPOCH_DAYS: i64 = 719_162;
// From -9999-01-01, the calendar's first day, to 0001-01-01.
const FIRST_DAY: u32 = 3_652_425;

const DAY_SECONDS: i64 = 86_400;
// 9999-12-31T23:59:59.
const LAST_SECOND: i64 = 315_537_897_599;

fn behind(text: &[u8], at: usize) -> &[u8]
    ensures { result.now ≡ drop at text.now }
{
    &text[at.min(text.len())..]
}

fn front(text: &[u8], len: usize) -> &[u8]
    ensures { result.now ≡ take len text.now }
{
    &text[..len.min(text.len())]
}

fn part(text: &[u8], at: usize, len: usize) -> &[u8]
    ensures { result.now ≡ part at len text.now }
{
    front(behind(text, at), len)
}

fn is_byte(text: &[u8], byte: u8) -> bool
    ensures { IsTrue result ↔ text.now ≡ byte ∷ [] }
{
    match text {
        [b] => *b == byte,
        _ => false,
    }
}

// The number that exactly so many digits write.
fn read_exactly(text: &[u8], len: usize) -> Option<u64>
    requires { len ≤ 19 }
    ensures value { MatchOption result ((n : ℕ) → ¬ (IsExactly len text.now n)) (IsExactly len text.now) }
    ensures below { IfSome result (λ n. n < 10 ^ len) }
{
    if text.len() != len {
        return None;
    }
    read_digits(text, len)
}

// The number that two digits write, if it is at most `most`.
fn read_two(text: &[u8], most: u64) -> Option<u64>
    ensures value { MatchOption result ((n : ℕ) → ¬ (IsTwoDigits most text.now n)) (IsTwoDigits most text.now) }
{
    match read_exactly(text, 2) {
        Some(n) if n <= most => Some(n),
        _ => None,
    }
}

// A day of the calendar, counted from 0001-01-01.
fn day_of(year: u64, month: u64, mday: u64) -> Option<i64>
    requires year { year < 10 ^ 4 }
    requires month { month < 10 ^ 2 }
    requires mday { mday < 10 ^ 2 }
    ensures value { MatchOption result ((day : ℤ) → ¬ (IsDayOf year month mday day)) (IsDayOf year month mday) }
    ensures bound { IfSome result (IsBetween (neg_ℤ (pos 10_000_000)) (pos 10_000_000)) }
{
    if year == 0 {
        return None;
    }
    match Date::new(year as i16, month as i8, mday as i8) {
        Ok(date) => Some(date.to_unix_epoch_day() as i64 + EPOCH_DAYS),
        Err(_) => None,
    }
}

fn read_date(text: &[u8]) -> Option<i64>
    ensures value { MatchOption result ((day : ℤ) → ¬ (IsFullDate text.now day)) (IsFullDate text.now) }
    ensures bound { IfSome result (IsBetween (neg_ℤ (pos 10_000_000)) (pos 10_000_000)) }
{
    if !is_byte(part(text, 4, 1), b'-') || !is_byte(part(text, 7, 1), b'-') {
        return None;
    }
    let Some(year) = read_exactly(part(text, 0, 4), 4) else {
        return None;
    };
    let Some(month) = read_exactly(part(text, 5, 2), 2) else {
        return None;
    };
    let Some(mday) = read_exactly(behind(text, 8), 2) else {
        return None;
    };
    match day_of(year, month, mday) {
        Some(day) => Some(day),
        None => None,
    }
}

// The seconds from midnight.
fn read_clock(text: &[u8]) -> Option<u64>
    ensures value { MatchOption result ((n : ℕ) → ¬ (IsClock text.now n)) (IsClock text.now) }
    ensures below { IfSome result (λ n. n < 86_400) }
{
    if !is_byte(part(text, 2, 1), b':') || !is_byte(part(text, 5, 1), b':') {
        return None;
    }
    let hour = read_two(part(text, 0, 2), 23)?;
    let minute = read_two(part(text, 3, 2), 59)?;
    let second = read_two(behind(text, 6), 59)?;
    Some(hour * 3600 + minute * 60 + second)
}

fn is_separator(text: &[u8]) -> bool
    ensures { IsTrue result ↔ IsSeparator text.now }
{
    is_byte(text, b'T') || is_byte(text, b' ')
}

// How many digits the text begins with.
fn digits_ahead(text: &[u8]) -> usize
    ensures within { result ≤ length text.now }
    ensures digits { AllDigits 10 (take result text.now) }
    ensures end { IsNoDigitAhead (drop result text.now) }
{
    let mut n = 0;
    'digits: for byte in text {
        let Some(_) = char::from(*byte).to_digit(10) else {
            return n;
        };
        n += 1;
    }
    n
}

fn behind_colon(text: &[u8]) -> &[u8]
    ensures { result.now ≡ behind_colon text.now }
{
    match text {
        [b':', rest @ ..] => rest,
        _ => text,
    }
}

// The hours and minutes of an offset, in seconds.
fn read_shift(text: &[u8]) -> Option<u64>
    ensures value { MatchOption result ((n : ℕ) → ¬ (IsShift text.now n)) (IsShift text.now) }
    ensures below { IfSome result (λ n. n < 86_400) }
{
    let hour = read_two(part(text, 0, 2), 23)?;
    let minute = read_two(behind_colon(behind(text, 2)), 59)?;
    Some(hour * 3600 + minute * 60)
}

fn east(text: &[u8]) -> Option<i64>
    ensures value { MatchOption result ((n : ℕ) → ¬ (IsShift text.now n)) (λ z. (n : ℕ) × IsShift text.now n × (z ≡ pos n)) }
    ensures bound { IfSome result (IsBetween (neg_ℤ (pos 86_400)) (pos 86_400)) }
{
    match read_shift(text) {
        Some(n) => Some(n as i64),
        None => None,
    }
}

fn west(text: &[u8]) -> Option<i64>
    ensures value { MatchOption result ((n : ℕ) → ¬ (IsShift text.now n)) (λ z. (n : ℕ) × IsShift text.now n × (z ≡ neg_ℤ (pos n))) }
    ensures bound { IfSome result (IsBetween (neg_ℤ (pos 86_400)) (pos 86_400)) }
{
    match read_shift(text) {
        Some(n) => Some(-(n as i64)),
        None => None,
    }
}

// An offset in seconds to the east.
fn read_offset(text: &[u8]) -> Option<i64>
    ensures value { MatchOption result ((z : ℤ) → ¬ (IsOffset text.now z)) (IsOffset text.now) }
    ensures bound { IfSome result (IsBetween (neg_ℤ (pos 86_400)) (pos 86_400)) }
{
    let [sign, rest @ ..] = text else {
        return Some(0);
    };
    match *sign {
        b'Z' if rest.is_empty() => Some(0),
        b'+' => east(rest),
        b'-' => west(rest),
        _ => None,
    }
}

// The offset behind the digits of a fraction.
fn read_fraction_tail(text: &[u8]) -> Option<i64>
    ensures value { MatchOption result ((z : ℤ) → ¬ (IsFractionTail text.now z)) (IsFractionTail text.now) }
    ensures bound { IfSome result (IsBetween (neg_ℤ (pos 86_400)) (pos 86_400)) }
{
    let n = digits_ahead(text);
    if n == 0 || n > 9 {
        return None;
    }
    match read_offset(behind(text, n)) {
        Some(offset) => Some(offset),
        None => None,
    }
}

// The offset behind the second, and behind its fraction, if there is one.
fn read_tail(text: &[u8]) -> Option<i64>
    ensures value { MatchOption result ((z : ℤ) → ¬ (IsTail text.now z)) (IsTail text.now) }
    ensures bound { IfSome result (IsBetween (neg_ℤ (pos 86_400)) (pos 86_400)) }
{
    if is_byte(front(text, 1), b'.') {
        return read_fraction_tail(behind(text, 1));
    }
    read_offset(text)
}

// The seconds as they are, where they lie in the years 0001 to 9999.
fn in_years(seconds: i64) -> Option<u64>
    ensures { MatchOption result ((n : ℕ) → n ≤ 315_537_897_599 → ¬ (pos n ≡ seconds)) (λ n. (n ≤ 315_537_897_599) × (pos n ≡ seconds)) }
{
    if seconds < 0 || seconds > LAST_SECOND {
        return None;
    }
    Some(seconds as u64)
}

fn seconds_of(text: &[u8]) -> Option<u64>
    ensures { MatchOption result ((n : ℕ) → ¬ (IsTimeText text.now n)) (IsTimeText text.now) }
{
    if !is_separator(part(text, 10, 1)) {
        return None;
    }
    let Some(day) = read_date(part(text, 0, 10)) else {
        return None;
    };
    let Some(clock) = read_clock(part(text, 11, 8)) else {
        return None;
    };
    let Some(offset) = read_tail(behind(text, 19)) else {
        return None;
    };
    match in_years(day * DAY_SECONDS + clock as i64 - offset) {
        Some(seconds) => Some(seconds),
        None => None,
    }
}

/// A time in seconds since 0001-01-01T00:00:00 UTC (RFC 3339, section 5.6): a date, `T` or a space, hour, minute and
/// second, perhaps a point and 1 to 9 digits, which are dropped, and perhaps `Z` or an offset as `+hh:mm` or `+hhmm`.
/// With no offset it is UTC. The year is 0001 to 9999, here and in UTC, and there is no leap second. It takes no memory.
#[tactic(auto, using(crate::proofs::TimeForms::time_some, crate::proofs::TimeForms::time_none))]
pub fn read_time(text: &[u8]) -> Result<u64, TimeFault>
    ensures writes { Parses IsTimeText text.now result }
    ensures value { result_ok result ≡ time_in text.now }
    ensures last { IfOk result (λ seconds. seconds ≤ 315_537_897_599) }
{
    match seconds_of(text) {
        Some(seconds) => Ok(seconds),
        None => Err(TimeFault::Bad),
    }
}

// The day with so many seconds since 0001-01-01T00:00:00.
fn date_at(seconds: u64) -> Date
    requires { seconds ≤ 315_537_897_599 }
    ensures { epoch_day result -ℤ days_from_civil (pos 1) 1 1 ≡ pos (seconds / 86_400) }
{
    Date::from_days_since_min((seconds / 86_400) as u32 + FIRST_DAY)
}

// The text of that date and time in UTC.
fn utc_text(alloc: Global, civil: DateTime) -> Result<Text, OutOfMemory>
    ensures { IfOk result (λ text. text ≡ datetime_text false 84 None civil ++ codes "+00:00") }
{
    let mut text = String::from_str(alloc, DateTimePrinter::new().datetime_text(civil).as_str())?;
    text.push_str("+00:00")?;
    Ok(Text::from(text))
}

/// The text of the time so many seconds after 0001-01-01T00:00:00 UTC, at most 9999-12-31T23:59:59: a date, `T`, hour,
/// minute and second in UTC, and `+00:00` (RFC 3339, section 5.6).
pub fn print_time(alloc: Global, seconds: u64) -> Result<Text, OutOfMemory>
    requires { seconds ≤ 315_537_897_599 }
    ensures printed { IfOk result (IsPrintedTime seconds) }
    ensures text { IfOk result (λ text. text ≡ time_text seconds) }
{
    let date = date_at(seconds);
    let time = Time::from_second((seconds % 86_400) as u32, 0);
    utc_text(alloc, DateTime { date, time })
}

fn is_utc(offset: &[u8]) -> bool
    ensures { IsTrue result ↔ offset.now ≡ codes "+00:00" }
{
    offset == b"+00:00".as_slice()
}

/// Whether a text that writes a time is as `print_time` writes that. It takes no memory.
pub fn is_printed_time(text: &[u8]) -> bool
    ensures { (seconds : ℕ) → time_in text.now ≡ Some seconds → (IsTrue result ↔ text.now ≡ time_text seconds) }
{
    is_byte(part(text, 10, 1), b'T') && is_utc(behind(text, 19))
}

/// What `print_time` writes is read as the same time.
pub fn printed_time_reads_back(seconds: u64, text: &[u8])
    requires last { seconds ≤ 315_537_897_599 }
    requires printed { IsPrintedTime seconds text.now }
    ensures { IsTimeText text.now seconds }
{}

/// The function forms give the times that texts write and the texts that times have, and nothing where there is none.
pub fn time_forms_are_exact(seconds: u64, text: &[u8])
    ensures read { IsTimeText text.now seconds ↔ time_in text.now ≡ Some seconds }
    ensures printed { seconds ≤ 315_537_897_599 → (IsPrintedTime seconds text.now ↔ text.now ≡ time_text seconds) }
    ensures back { seconds ≤ 315_537_897_599 → time_in (time_text seconds) ≡ Some seconds }
{}

/// A text writes one time at most.
pub fn time_of_a_text_is_one(text: &[u8])
    ensures { (a b : ℕ) → IsTimeText text.now a → IsTimeText text.now b → a ≡ b }
{}
