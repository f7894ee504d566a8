// Scripts of a display's clock.
use crate::line::split;
use crate::told::Text;
use clock_script::{Script, ScriptFault, ScriptLine, read_script};
use std::alloc::{AllocError, Global};

/// Reads a script for so many streams, whose lines end at a bar in place of a line feed. A wave stands for a carriage
/// return.
pub fn script(alloc: Global, streams: u32, text: &str) -> Text {
    let text = text_of(alloc, text)?;
    match read_script(alloc, &text, streams) {
        Ok(script) => told(alloc, &script.copy(alloc)?),
        Err(ScriptFault::Line(number)) => format!(in alloc; "line {number} is at fault"),
        Err(ScriptFault::OutOfMemory) => Err(AllocError),
    }
}

/// The script behind the first word.
pub fn script_in(rest: &str) -> &str {
    let (_, text) = split(rest);
    text
}

fn text_of(alloc: Global, text: &str) -> Result<Vec<u8>, AllocError> {
    let mut bytes = Vec::new(alloc);
    for byte in text.bytes() {
        bytes.push(match byte {
            b'|' => b'\n',
            b'~' => b'\r',
            other => other,
        })?;
    }
    Ok(bytes)
}

fn told(alloc: Global, script: &Script) -> Text {
    let count = script.len();
    let mut text = format!(in alloc; "lines {count}")?;
    for place in 0..script.len() {
        let line = match script.line(place) {
            ScriptLine::Tick(time) => format!(in alloc; "; tick {time}")?,
            ScriptLine::Preempt(time, stream) => format!(in alloc; "; preempt {time} {stream}")?,
        };
        text.push_str(line.as_str())?;
    }
    Ok(text)
}
