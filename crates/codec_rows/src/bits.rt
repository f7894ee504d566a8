// Bits, codewords and the escaping of NAL units (H.264, 7.2, 7.3.1 and 9.1), and blocks of coefficients (9.2).
use crate::line::{Line, bytes_of, number, signed, split};
use crate::told::{Text, in_hex, shown};
use bit_io::{BitReader, BitWriter, UnescapeFault, escape, unescape};
use cavlc::{read_block, read_block_into, write_block};
use std::alloc::{AllocError, Global};

/// Reads or writes bits, if the line asks for it.
pub fn answer(alloc: Global, line: Line<'_>) -> Option<Text> {
    let [first, second, third, ..] = line.words;
    match line.name {
        "read" => Some(read(alloc, first, second)),
        "write" => Some(write(alloc, first)),
        "escape" => Some(escaped(alloc, first)),
        "unescape" => Some(unescaped(alloc, first)),
        "block" => Some(block(alloc, signed(first), number(second), third)),
        "block_into" => Some(block_into(alloc, signed(first), number(second), third)),
        "block_back" => Some(block_back(alloc, signed(first), number(second), third)),
        _ => None,
    }
}

// What is read of these elements, one behind the other.
fn read(alloc: Global, elements: &str, bytes: &str) -> Text {
    let bytes = bytes_of(alloc, bytes)?;
    let mut reader = BitReader::new(&bytes);
    let mut text = String::new(alloc);
    for element in elements.split(',') {
        if !text.is_empty() {
            text.push_str(" ")?;
        }
        let value = value_of(alloc, &mut reader, element)?;
        text.push_str(value.as_str())?;
    }
    Ok(text)
}

fn value_of(alloc: Global, reader: &mut BitReader, element: &str) -> Text {
    let (name, argument) = split(element, ':');
    let n = number(argument);
    match name {
        "u" if n <= 32 => shown(alloc, reader.read_u(n)),
        "ue" => shown(alloc, reader.read_ue()),
        "se" => shown(alloc, reader.read_se()),
        "te" => shown(alloc, reader.read_te(n.max(1))),
        _ => ahead_of(alloc, reader, name, n),
    }
}

// What is seen of the bits ahead, and a step over some of them.
fn ahead_of(alloc: Global, reader: &mut BitReader, name: &str, n: u32) -> Text {
    match name {
        "more_data" => shown(alloc, Some(reader.more_data())),
        "ends_here" => shown(alloc, Some(reader.ends_here())),
        "peek" if n <= 32 => shown(alloc, Some(reader.peek(n))),
        "fork_ue" => shown(alloc, reader.fork().read_ue()),
        "holds" if n <= 64 => shown(alloc, Some(reader.holds(n))),
        "skip" if n <= 64 && reader.holds(n) => {
            reader.skip(n);
            format!(in alloc; "skipped")
        }
        _ => format!(in alloc; "no element"),
    }
}

// The bytes of these elements, and of the trailing bits.
fn write(alloc: Global, elements: &str) -> Text {
    let mut writer = BitWriter::new(alloc);
    for element in elements.split(',') {
        put(&mut writer, element)?;
    }
    writer.finish()?;
    in_hex(alloc, writer.bytes())
}

// An element that has no codeword is passed over.
fn put(writer: &mut BitWriter, element: &str) -> Result<(), AllocError> {
    let (name, argument) = split(element, ':');
    let (first, second) = split(argument, ':');
    let n = number(first);
    let value = number(second);
    let difference = signed(first);
    match name {
        "u" if n < 32 && value < 1 << n => writer.put_u(value, n),
        "ue" if n < u32::MAX => writer.put_ue(n),
        "se" if difference.unsigned_abs() < 1 << 31 => writer.put_se(difference),
        "te" if 1 <= n && value <= n && value < u32::MAX => writer.put_te(value, n),
        "taken_back_ue" if n < u32::MAX => {
            let mark = writer.mark();
            writer.put_ue(n)?;
            writer.back_to(mark);
            Ok(())
        }
        _ => Ok(()),
    }
}

fn escaped(alloc: Global, bytes: &str) -> Text {
    let bytes = bytes_of(alloc, bytes)?;
    let unit = escape(alloc, &bytes)?;
    in_hex(alloc, &unit)
}

fn unescaped(alloc: Global, unit: &str) -> Text {
    let unit = bytes_of(alloc, unit)?;
    match unescape(alloc, &unit) {
        Ok(bytes) => in_hex(alloc, &bytes),
        Err(UnescapeFault::Forbidden { at }) => format!(in alloc; "forbidden at {at}"),
        Err(UnescapeFault::OutOfMemory) => Err(AllocError),
    }
}

fn block(alloc: Global, nc: i32, most: u32, bytes: &str) -> Text {
    let bytes = bytes_of(alloc, bytes)?;
    let mut reader = BitReader::new(&bytes);
    let levels = shown(alloc, read_block(&mut reader, nc, most.min(16)))?;
    let more = reader.holds(1);
    format!(in alloc; "{levels}, more bits: {more}")
}

// The same over a block of sevens.
fn block_into(alloc: Global, nc: i32, most: u32, bytes: &str) -> Text {
    let bytes = bytes_of(alloc, bytes)?;
    let mut reader = BitReader::new(&bytes);
    let mut levels = [7; 16];
    let total = read_block_into(&mut reader, nc, most.min(16), &mut levels);
    let total = shown(alloc, total)?;
    let more = reader.holds(1);
    format!(in alloc; "{total} in {levels:?}, more bits: {more}")
}

// The bytes of the block that is read, and of the trailing bits.
fn block_back(alloc: Global, nc: i32, most: u32, bytes: &str) -> Text {
    let bytes = bytes_of(alloc, bytes)?;
    let most = most.min(16);
    let mut reader = BitReader::new(&bytes);
    let Some(levels) = read_block(&mut reader, nc, most) else {
        return format!(in alloc; "none");
    };
    let mut writer = BitWriter::new(alloc);
    write_block(&mut writer, nc, most, &levels)?;
    writer.finish()?;
    in_hex(alloc, writer.bytes())
}
