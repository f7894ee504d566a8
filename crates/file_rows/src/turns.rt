// The turns of a stream.
ghost use Rattle.std.specs.Prelude.{◌≤◌, OnOk, ℕ, Bool, false, length};
ghost use Rattle.file_rows.specs.Courses.{StandsAt, Stays};

use crate::line::{Text, bytes_of, script_of};
use clock_script::{ScriptFault, read_script};
use std::alloc::{AllocError, Global};
use stream_course::{Course, Turn};
use vd_plane::Picture;

/// The turns of stream 0, but for those that want bytes.
pub fn turns(alloc: Global, period: u32, piece: u32, script: &str, bytes: &str) -> Text {
    let script = script_of(alloc, script)?;
    let bytes = bytes_of(alloc, bytes)?;
    match read_script(alloc, &script, 1) {
        Ok(script) => {
            let mut course = Course::new(alloc, script, 0, u64::from(period));
            course_turns(alloc, &mut course, &bytes, piece as usize)
        }
        Err(ScriptFault::Line(number)) => format!(in alloc; "line {number} is at fault"),
        Err(ScriptFault::OutOfMemory) => Err(AllocError),
    }
}

fn course_turns(alloc: Global, course: &mut Course, bytes: &[u8], piece: usize) -> Text
    requires { StandsAt course.old 0 false }
{
    let picture = Picture::new(alloc, 1, 1)?;
    let mut told = String::new(alloc);
    if bytes.len() > 1_000_000 || piece < 1 {
        return Ok(told);
    }
    let mut from = 0;
    while from < bytes.len() {
        let to = from + piece.min(bytes.len() - from);
        course.feed(&bytes[from..to])?;
        tell(alloc, course, &picture, &mut told)?;
        from = to;
    }
    course.feed(&[])?;
    tell(alloc, course, &picture, &mut told)?;
    Ok(told)
}

// What a course answers.
#[derive(Drop)]
enum Asked {
    // Nothing further, before more bytes come or at all.
    Enough,
    Turn(String),
    Over(String),
}

// Asks for turns until more bytes are wanted, or none follows.
fn tell(
    alloc: Global,
    course: &mut Course,
    picture: &Picture,
    told: &mut String,
) -> Result<(), AllocError>
    requires { (count : ℕ) × ((over : Bool) × StandsAt course.old count over) }
    ensures { OnOk result (Stays course.old course.new) }
{
    for turn in 0..1_000 {
        match ask(alloc, course, picture)? {
            Asked::Enough => return Ok(()),
            Asked::Turn(text) => told.push_str(text.as_str())?,
            Asked::Over(text) => {
                told.push_str(text.as_str())?;
                return Ok(());
            }
        }
    }
    Ok(())
}

// A turn. A picture that is to be decoded has these samples.
fn ask(alloc: Global, course: &mut Course, picture: &Picture) -> Result<Asked, AllocError>
    requires { (count : ℕ) × ((over : Bool) × StandsAt course.old count over) }
    ensures { OnOk result (Stays course.old course.new) }
{
    let _picture = picture;
    match course.next()? {
        Turn::Hungry => Ok(Asked::Enough),
        Turn::Decode(unsettled) => {
            course.settle(unsettled.offset, true);
            let (poc, slices) = (unsettled.begun.poc, unsettled.begun.info.slice_count);
            Ok(Asked::Turn(format!(in alloc; "decode {poc} of {slices}; ")?))
        }
        Turn::Out {
            number,
            time: Some(time),
        } => Ok(Asked::Turn(format!(in alloc; "picture {number} at {time}; ")?)),
        Turn::Out { number, time: None } => Ok(Asked::Turn(format!(in alloc;
            "picture {number} not shown; "
        )?)),
        Turn::Promise(time) => Ok(Asked::Turn(format!(in alloc; "promise {time}; ")?)),
        Turn::Over(ending) => Ok(Asked::Over(format!(in alloc; "over {ending:?}")?)),
    }
}
