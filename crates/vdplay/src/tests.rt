// What only an outside of a test's own can show: reads and writes that are short, and of which one fails; and what is
// offered of a file in pieces. Files that are cut or damaged are tried on the built program, by tools/damaged.
ghost use Rattle.std.specs.Prelude.{◌≡◌, ◌+◌, ◌<◌, ◌≤◌, true, false, ℕ, List, length, Some, None, IfSome, IfOk, IsErr, IsErrOf, OnErr, OnOk};
ghost use Rattle.std.specs.Io.KnownBytes.{WriteAppends};
ghost use Rattle.access_units.specs.Acceptors.{Past};
ghost use Rattle.access_units.specs.Standing as standing;
ghost use Rattle.vd_outside.specs.Count.{HasCause};
ghost use Rattle.vd_outside.specs.Shelf.{Fills, IsMissing, told};

use crate::exit::Exit;
use crate::run::run_plain;
use access_units::{Acceptor, Next};
use std::alloc::{AllocError, Global};
use std::test::Fail;
use vd_outside::{Failed, MemShelf, MemSink, Shelf, Sink, SinkFault};

// Two parameter sets, an IDR picture of one I_PCM macroblock whose 384 samples are 128, and a P picture of a skipped
// macroblock, each unit behind a start code of four bytes: what stands before the samples, and the last unit.
const FRONT: [u8; 27] = [
    0, 0, 0, 1, 0x67, 0x42, 0xC0, 0x0A, 0xDA, 0x71, 0, 0, 0, 1, 0x68, 0xCE, 0x3C, 0x80, 0, 0, 0, 1,
    0x65, 0x88, 0x84, 0xA0, 0xD0,
];

const LAST: [u8; 8] = [0, 0, 0, 1, 0x41, 0x9A, 0x22, 0x94];

// The same, and a third picture, which repeats the second.
fn three_pictures() -> [u8; 428] {
    let mut file = [0x80; 428];
    file[..27].copy_from_slice(&FRONT);
    file[412..420].copy_from_slice(&LAST);
    file[420..].copy_from_slice(&[0, 0, 0, 1, 0x41, 0x9A, 0x42, 0x94]);
    file
}

const LINES: &[u8] = b"PICTURE 4 0 0\nPICTURE 416 0 2\nPICTURE 424 0 4\nEND\n";

// A shelf that gives one byte at a read.
#[derive(Drop)]
struct ShortShelf {
    shelf: MemShelf,
}

impl Shelf for ShortShelf {
    ghost use Rattle.vd_outside.specs.Memory.{faults_at, file_of};

    ghost content = { λ short. Some (file_of short.shelf) };

    ghost faults = { λ short. faults_at short.shelf };

    fn read_at(&mut self, name: &str, at: u64, buf: &mut [u8]) -> Result<usize, Failed> {
        let room = buf.len().min(1);
        self.shelf.read_at(name, at, &mut buf[..room])
    }
}

// A sink that takes at most three bytes at a write.
#[derive(Drop)]
struct ShortSink {
    sink: MemSink,
}

impl Sink for ShortSink {
    ghost use Rattle.vd_outside.specs.Memory.{failed_writes, written_then, written_to};

    ghost written = { λ short. Some (written_to short.sink) };

    ghost faults = { λ short. failed_writes short.sink };

    ghost written_at_fault = { λ short. Some (written_then short.sink) };

    fn write(&mut self, bytes: &[u8]) -> Result<usize, SinkFault> {
        self.sink.write(&bytes[..bytes.len().min(3)])
    }
}

// A file of one name, with the reads of these numbers failing.
fn shelf_of(alloc: Global, file: &[u8], failing: &[u64]) -> Result<MemShelf, AllocError> {
    let mut shelf = MemShelf::new(alloc, failing.to_vec(alloc)?)?;
    shelf.put(alloc, "f", file)?;
    Ok(shelf)
}

fn sink_of(alloc: Global, failing: &[u64]) -> Result<MemSink, AllocError> {
    MemSink::new(alloc, failing.to_vec(alloc)?)
}

fn words_of(alloc: Global, command: &str) -> Result<Vec<String>, AllocError> {
    let mut words = Vec::new(alloc);
    words.push(command.to_string(alloc)?)?;
    words.push("f".to_string(alloc)?)?;
    Ok(words)
}

// How a run ended, and what it wrote.
#[derive(Drop)]
struct Ran {
    exit: Exit,
    sink: MemSink,
}

// Runs a command over a file with short reads and writes, of which those of these numbers fail.
fn run_in_pieces(
    alloc: Global,
    command: &str,
    file: &[u8],
    failing_reads: &[u64],
    failing_writes: &[u64],
) -> Result<Ran, AllocError> {
    let mut shelf = ShortShelf {
        shelf: shelf_of(alloc, file, failing_reads)?,
    };
    let mut short = ShortSink {
        sink: sink_of(alloc, failing_writes)?,
    };
    let exit = run_plain(alloc, &words_of(alloc, command)?, &mut shelf, &mut short);
    let ShortSink { sink } = short;
    Ok(Ran { exit, sink })
}

// A command, the text of the three pictures, and in how many writes it goes: a plane of 256 samples takes 86 of three
// bytes, one of 64 takes 22; lines of 14, 16 and 4 bytes take 5, 6 and 2.
static TEXTS: [(&str, &[u8], u64); 2] = [("decode", &[128; 1152], 390), ("inspect", LINES, 19)];

// One read looks for a byte behind the greatest file, 428 give a byte each, and the last one none.
const READS: u64 = 430;

// How a run ends in which so many reads, or writes, are made, where the one of this number is to fail.
fn ending(made: u64, failing: u64, fault: Exit) -> Exit {
    if failing < made { fault } else { Exit::Done }
}

// How much of the lines is written before the read of this number: the first picture is settled by the unit behind it,
// and that one by the bytes 00 00 00, up to the byte 422, so that the read behind them has the number 424.
fn lines_before(read: u64) -> usize {
    if read >= READS {
        LINES.len()
    } else if read >= 424 {
        14
    } else {
        0
    }
}

#[test]
fn reads_and_writes_that_fail(rt: HostRuntime) -> Result<(), Fail> {
    let file = three_pictures();
    for (command, text, writes) in &TEXTS {
        for number in 0..440u64 {
            let ran = run_in_pieces(rt.alloc(), command, &file, &[number], &[])?;
            assert_eq!(rt;
                ran.exit,
                ending(READS, number, Exit::ReadFault),
                "read {number}"
            );
            assert!(rt; text.starts_with(ran.sink.bytes()), "read {number}");
            if *command == "inspect" {
                assert_eq!(rt;
                    ran.sink.bytes().len(),
                    lines_before(number),
                    "read {number}"
                );
            }
            let ran = run_in_pieces(rt.alloc(), command, &file, &[], &[number])?;
            assert_eq!(rt;
                ran.exit,
                ending(*writes, number, Exit::WriteFault),
                "write {number}"
            );
            assert!(rt; text.starts_with(ran.sink.bytes()), "write {number}");
        }
    }
    Ok(())
}

// The place of a picture's access unit, and how many bytes its slices have, each behind a start code of three bytes.
type Offered = (u64, usize);

// Feeds bytes behind so many, settles the pictures that come then, and answers what comes behind them.
fn accepted(
    acceptor: &mut Acceptor,
    at: usize,
    bytes: &[u8],
    offered: &mut Vec<Offered>,
) -> Result<Next, AllocError>
    requires { (past : Past) × standing.StandsFor acceptor.old past × (past.ended ≡ false) × (past.outcome ≡ Some true) × (length past.text ≡ at) × (at + length bytes.now ≤ 1073741824) }
    ensures { IfOk result (λ last. last ≡ Next.Hungry → (past : Past) × standing.StandsFor acceptor.new past × (past.ended ≡ false) × (past.outcome ≡ Some true) × (length past.text ≡ at + length bytes.now)) }
{
    acceptor.feed(bytes)?;
    for _ in 0..4 {
        match acceptor.next()? {
            Next::Picture(unsettled) => {
                offered.push((unsettled.offset, unsettled.submission.bytes().len()))?;
                acceptor.settle(true);
            }
            last => return Ok(last),
        }
    }
    Ok(Next::End)
}

// Feeds a file in two pieces and its end. Answers how many pictures came of the first piece, and what comes behind all.
fn accepted_in_pieces(
    alloc: Global,
    file: &[u8],
    cut: usize,
    offered: &mut Vec<Offered>,
) -> Result<(usize, Next), AllocError>
    requires { (cut ≤ length file.now) × (length file.now ≤ 1073741824) }
{
    let mut acceptor = Acceptor::new(alloc);
    let first = accepted(&mut acceptor, 0, &file[..cut], offered)?;
    let early = offered.len();
    let Next::Hungry = first else {
        return Ok((early, first));
    };
    let second = accepted(&mut acceptor, cut, &file[cut..], offered)?;
    let Next::Hungry = second else {
        return Ok((early, second));
    };
    Ok((early, accepted(&mut acceptor, file.len(), &[], offered)?))
}

// The first picture is settled by the unit behind it, and that one by the bytes 00 00 00.
#[test]
fn access_units_in_pieces(rt: HostRuntime) -> Result<(), Fail> {
    let file = three_pictures();
    for cut in 1..428usize {
        let mut offered = Vec::new(rt.alloc());
        let (early, last) = accepted_in_pieces(rt.alloc(), &file, cut, &mut offered)?;
        assert!(rt; matches!(last, Next::End));
        assert_eq!(rt;
            offered.as_slice(),
            [(4, 393), (416, 7), (424, 7)].as_slice()
        );
        assert_eq!(rt; early, usize::from(cut >= 423));
    }
    Ok(())
}
