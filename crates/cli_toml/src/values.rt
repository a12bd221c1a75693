//! What stands under a key.

ghost use Rattle.std.specs.Prelude.{◌≡◌, ◌⊎◌, ◌≤◌, ◌^◌, ℕ, List, Some, None, Ok, IfErr, IfNone, IfOk, IfSome, IsNone, OnErr, option_map};
ghost use Rattle.cli_settings.specs.Program.{zeros};
ghost use Rattle.cli_toml.specs.Refusing.{AreDigits, AreDigitsOf, IsCount, IsText, IsTruth, IsWhole, MayBe};
ghost use Rattle.cli_toml.specs.Saying.{Gives, under, whole};
ghost use Rattle.cli_toml.specs.declared.fault.ValueFault.TheVariants.{Memory, Missing, Unfit};
ghost use Rattle.hex.specs.Hex.{decode_of, decode_sized};
ghost use Rattle.toml.specs.Data.{boolean, string};
ghost use Rattle.toml.specs.View.{table_view, view};

use crate::fault::ValueFault;
use crate::key::Key;
use hex::FromHex;
use std::alloc::Global;
use toml::{Table, Value};

/// What stands under a key.
fn value_at<'a>(table: &'a Table, key: Key) -> Option<&'a Value>
    ensures { option_map (λ v. view v.now) result ≡ under key (table_view table.now) }
{
    table.get(key.name())
}

/// The number that a value is, if it is one from 0 to 2^63-1.
fn number_in(value: &Value) -> Option<u64>
    ensures number { IfSome result (λ n. view value.now ≡ whole n) }
    ensures none { IsNone result → (n : ℕ) → ¬ (view value.now ≡ whole n) }
{
    let number = value.as_integer()?;
    u64::try_from(number).ok()
}

/// The number under a key, if there is one.
pub(crate) fn number(table: &Table, key: Key) -> Result<Option<u64>, ValueFault>
    ensures number { IfOk result (λ n. under key (table_view table.now) ≡ option_map whole n) }
    ensures unfit { IfErr result (λ fault. (fault ≡ Unfit key) × ¬ MayBe IsWhole (under key (table_view table.now))) }
{
    match value_at(table, key) {
        None => Ok(None),
        Some(value) => match number_in(value) {
            Some(number) => Ok(Some(number)),
            None => Err(ValueFault::Unfit(key)),
        },
    }
}

/// The number under a key, or this one where the key isn't there.
pub(crate) fn number_or(table: &Table, key: Key, default: u64) -> Result<u64, ValueFault>
    ensures number { IfOk result (Gives whole default (under key (table_view table.now))) }
    ensures unfit { IfErr result (λ fault. (fault ≡ Unfit key) × ¬ MayBe IsWhole (under key (table_view table.now))) }
{
    match number(table, key) {
        Ok(Some(number)) => Ok(number),
        Ok(None) => Ok(default),
        Err(fault) => Err(fault),
    }
}

/// The number of 32 bits.
fn narrow(number: u64, key: Key) -> Result<u32, ValueFault>
    ensures same { IfOk result (λ n. n ≡ number) }
    ensures wide { OnErr result (2 ^ 32 ≤ number) }
    ensures named { IfErr result (λ fault. fault ≡ Unfit key) }
{
    match u32::try_from(number) {
        Ok(number) => Ok(number),
        Err(_) => Err(ValueFault::Unfit(key)),
    }
}

/// The number of 32 bits under a key, or this one where the key isn't there.
pub(crate) fn count_or(table: &Table, key: Key, default: u32) -> Result<u32, ValueFault>
    ensures number { IfOk result (Gives whole default (under key (table_view table.now))) }
    ensures unfit { IfErr result (λ fault. (fault ≡ Unfit key) × ¬ MayBe IsCount (under key (table_view table.now))) }
{
    match number(table, key) {
        Ok(Some(number)) => narrow(number, key),
        Ok(None) => Ok(default),
        Err(fault) => Err(fault),
    }
}

/// The number of 32 bits under a key that has to be there.
pub(crate) fn count(table: &Table, key: Key) -> Result<u32, ValueFault>
    ensures number { IfOk result (λ n. under key (table_view table.now) ≡ Some (whole n)) }
    ensures unfit { IfErr result (λ fault.
        ((fault ≡ Missing key) × (under key (table_view table.now) ≡ None)) ⊎ ((fault ≡ Unfit key) × ¬ MayBe IsCount (under key (table_view table.now)))) }
{
    match number(table, key) {
        Ok(Some(number)) => narrow(number, key),
        Ok(None) => Err(ValueFault::Missing(key)),
        Err(fault) => Err(fault),
    }
}

/// The truth value under a key, or this one where the key isn't there.
pub(crate) fn truth_or(table: &Table, key: Key, default: bool) -> Result<bool, ValueFault>
    ensures truth { IfOk result (Gives boolean default (under key (table_view table.now))) }
    ensures unfit { IfErr result (λ fault. (fault ≡ Unfit key) × ¬ MayBe IsTruth (under key (table_view table.now))) }
{
    match value_at(table, key) {
        None => Ok(default),
        Some(value) => match value.as_bool() {
            Some(truth) => Ok(truth),
            None => Err(ValueFault::Unfit(key)),
        },
    }
}

/// The text under a key, if there is one.
pub(crate) fn text<'a>(table: &'a Table, key: Key) -> Result<Option<&'a str>, ValueFault>
    ensures text { IfOk result (λ s. under key (table_view table.now) ≡ option_map (λ s. string s.now) s) }
    ensures unfit { IfErr result (λ fault. (fault ≡ Unfit key) × ¬ MayBe IsText (under key (table_view table.now))) }
{
    match value_at(table, key) {
        None => Ok(None),
        Some(value) => match value.as_str() {
            Some(text) => Ok(Some(text)),
            None => Err(ValueFault::Unfit(key)),
        },
    }
}

/// The bytes of a text.
pub(crate) fn bytes_of(alloc: Global, text: &str) -> Result<Vec<u8>, ValueFault>
    ensures bytes { IfOk result (λ bytes. bytes.items ≡ text.now) }
    ensures memory { IfErr result (λ fault. fault ≡ Memory) }
{
    match Vec::from_slice(alloc, text.as_bytes()) {
        Ok(bytes) => Ok(bytes),
        Err(_) => Err(ValueFault::Memory),
    }
}

/// The bytes that the text under a key spells in hexadecimal digits, if there is one.
pub(crate) fn digits(alloc: Global, table: &Table, key: Key) -> Result<Option<Vec<u8>>, ValueFault>
    ensures none { IfOk result (λ found. IfNone found (under key (table_view table.now) ≡ None)) }
    ensures bytes { IfOk result (λ found. IfSome found (λ bytes.
        (digits : List ℕ) × (under key (table_view table.now) ≡ Some (string digits)) × (decode_of digits ≡ Ok bytes.items))) }
    ensures unfit { IfErr result (λ fault. (fault ≡ Memory) ⊎ ((fault ≡ Unfit key) × ¬ MayBe AreDigits (under key (table_view table.now)))) }
{
    match text(table, key) {
        Ok(Some(text)) => match hex::decode(alloc, text) {
            Ok(bytes) => Ok(Some(bytes)),
            Err(hex::FromHexError::OutOfMemory) => Err(ValueFault::Memory),
            Err(_) => Err(ValueFault::Unfit(key)),
        },
        Ok(None) => Ok(None),
        Err(fault) => Err(fault),
    }
}

/// The 32 bytes that the text under a key spells in hexadecimal digits, or zeros where the key isn't there.
pub(crate) fn digest(table: &Table, key: Key) -> Result<[u8; 32], ValueFault>
    ensures bytes { IfOk result (λ bytes.
        ((digits : List ℕ) × (under key (table_view table.now) ≡ Some (string digits)) × (decode_sized digits 32 ≡ Ok bytes)) ⊎
        ((under key (table_view table.now) ≡ None) × (bytes ≡ zeros))) }
    ensures unfit { IfErr result (λ fault. (fault ≡ Unfit key) × ¬ MayBe (AreDigitsOf 32) (under key (table_view table.now))) }
{
    match text(table, key) {
        Ok(Some(text)) => match <[u8; 32] as FromHex>::from_hex(text) {
            Ok(bytes) => Ok(bytes),
            Err(_) => Err(ValueFault::Unfit(key)),
        },
        Ok(None) => Ok([0; 32]),
        Err(fault) => Err(fault),
    }
}
