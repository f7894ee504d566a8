// Records as bytes.
ghost use Rattle.std.specs.Prelude.{◌≡◌, ◌≢◌, ◌≤◌, ◌+◌, ◌++◌, List, drop, take, length, IfOk, MatchOption, OnOk};
ghost use Rattle.byteorder.specs.Endian.{big_bytes};
ghost use Rattle.trace_records.specs.Places.{IsByPlace};
ghost use Rattle.trace_records.specs.Ranges.{IsRecord};
ghost use Rattle.trace_records.specs.Records.{bytes_of, bytes_of_all, bytes_of_words};

use super::record::Record;
use super::words::Words;
use byteorder::{BigEndian, ByteOrder};
use std::alloc::{AllocError, Global};

/// So many bytes a record has.
pub const RECORD_BYTES: usize = 48;

/// The record that these 48 bytes are, if they are one: six words of 64 bits, the highest byte first.
pub fn read_record(bytes: &[u8]) -> Option<Record>
    requires { length bytes.now ≡ 48 }
    ensures { MatchOption result ((r : Record) → IsRecord r → bytes_of r ≢ bytes.now) (λ r. IsRecord r × (bytes_of r ≡ bytes.now)) }
{
    words_in(bytes).record()
}

// The words of these bytes.
fn words_in(bytes: &[u8]) -> Words
    requires { length bytes.now ≡ 48 }
    ensures { bytes_of_words result ≡ bytes.now }
{
    Words {
        place: word_at(bytes, 0),
        call: word_at(bytes, 8),
        a: word_at(bytes, 16),
        b: word_at(bytes, 24),
        c: word_at(bytes, 32),
        d: word_at(bytes, 40),
    }
}

// The word at this place.
fn word_at(bytes: &[u8], place: usize) -> u64
    requires { place + 8 ≤ length bytes.now }
    ensures { big_bytes 8 result ≡ take 8 (drop place bytes.now) }
{
    BigEndian::read_u64(&bytes[place..place + 8])
}

/// The bytes of records by their places, the lowest first. Those of one place stay in their order.
pub fn write_by_place(alloc: Global, mut records: Vec<Record>) -> Result<Vec<u8>, AllocError>
    ensures { IfOk result (λ bytes. (sorted : List Record) × IsByPlace records.items sorted × (bytes.items ≡ bytes_of_all sorted)) }
{
    records.sort_by_key(|record| record.place)?;
    write_records(alloc, &records)
}

// The records' bytes, one behind the other.
fn write_records(alloc: Global, records: &[Record]) -> Result<Vec<u8>, AllocError>
    ensures { IfOk result (λ bytes. bytes.items ≡ bytes_of_all records.now) }
{
    let mut bytes = Vec::new(alloc);
    for record in records {
        let words = Words::at(record.place, &record.event);
        push_words(&mut bytes, words)?;
    }
    Ok(bytes)
}

fn push_words(bytes: &mut Vec<u8>, words: Words) -> Result<(), AllocError>
    ensures { OnOk result (bytes.new.items ≡ bytes.old.items ++ bytes_of_words words) }
{
    push_word(bytes, words.place)?;
    push_word(bytes, words.call)?;
    push_word(bytes, words.a)?;
    push_word(bytes, words.b)?;
    push_word(bytes, words.c)?;
    push_word(bytes, words.d)
}

fn push_word(bytes: &mut Vec<u8>, word: u64) -> Result<(), AllocError>
    ensures { OnOk result (bytes.new.items ≡ bytes.old.items ++ big_bytes 8 word) }
{
    let mut eight = [0; 8];
    BigEndian::write_u64(&mut eight, word);
    bytes.extend_from_slice(&eight)
}
