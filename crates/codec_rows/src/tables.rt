// The codes of H.264, Tables 9-5 and 9-7 to 9-10, and the numbers of Tables 9-4 and 8-15 to 8-17.
ghost use Rattle.std.specs.Prelude.{IsTrue};
ghost use Rattle.cb_tables.specs.CoeffToken.{IsToken};
ghost use Rattle.cb_tables.specs.RunBefore.{IsRun};
ghost use Rattle.cb_tables.specs.TotalZeros.{IsDcZeros, IsTotalZeros};

use crate::line::{Line, number};
use crate::told::{Text, shown};
use cb_tables::{
    Code, Found, FoundToken, alpha, beta, chroma_qp_of, dc_zeros, find_dc_zeros, find_run,
    find_token, find_zeros, level_scale, pattern, pattern_code, run, tc0, token, zeros,
};
use std::alloc::Global;

/// Looks a code or a number up, if the line asks for one that is there.
pub fn answer(alloc: Global, line: Line<'_>) -> Option<Text> {
    let [first, second, third, ..] = line.words;
    let a = number(first);
    let b = number(second);
    let c = number(third);
    match line.name {
        "token" if is_token(a, b, c) => Some(code_text(alloc, token(a, b, c))),
        "zeros" if is_zeros(a, b) => Some(code_text(alloc, zeros(a, b))),
        "dc_zeros" if is_dc_zeros(a, b) => Some(code_text(alloc, dc_zeros(a, b))),
        "run" if is_run(a, b) => Some(code_text(alloc, run(a, b))),
        "find_token" if a <= 4 => Some(token_text(alloc, find_token(a, window(second)))),
        "find_run" if 1 <= a => Some(found_text(alloc, find_run(a, window(second)))),
        "find_zeros" if 1 <= a && a <= 15 => {
            Some(found_text(alloc, find_zeros(a, window(second))))
        }
        "find_dc_zeros" if 1 <= a && a <= 3 => {
            Some(found_text(alloc, find_dc_zeros(a, window(second))))
        }
        _ => number_answer(alloc, line.name, a, second),
    }
}

fn number_answer(alloc: Global, name: &str, a: u32, second: &str) -> Option<Text> {
    let b = number(second);
    let intra = second == "intra";
    let found = match name {
        "pattern" if a <= 47 => pattern(a, intra),
        "pattern_code" if a <= 47 => pattern_code(a, intra),
        "level_scale" if a <= 5 && b <= 15 => level_scale(a, b),
        "chroma_qp_of" if a <= 51 => chroma_qp_of(a),
        "alpha" if a <= 51 => alpha(a),
        "beta" if a <= 51 => beta(a),
        "tc0" if a <= 51 && 1 <= b && b <= 3 => tc0(a, b),
        _ => return None,
    };
    Some(shown(alloc, Some(found)))
}

fn is_token(table: u32, total: u32, ones: u32) -> bool
    ensures { IsTrue result → IsToken table total ones }
{
    table <= 4 && total <= if table == 4 { 4 } else { 16 } && ones <= total.min(3)
}

fn is_zeros(total: u32, zeros: u32) -> bool
    ensures { IsTrue result → IsTotalZeros total zeros }
{
    1 <= total && total <= 15 && zeros <= 16 - total
}

fn is_dc_zeros(total: u32, zeros: u32) -> bool
    ensures { IsTrue result → IsDcZeros total zeros }
{
    1 <= total && total <= 3 && zeros <= 4 - total
}

fn is_run(left: u32, run: u32) -> bool
    ensures { IsTrue result → IsRun left run }
{
    1 <= left && run <= if left <= 6 { left } else { 14 }
}

// 32 bits that begin with these digits, with zeros behind them.
fn window(digits: &str) -> u32 {
    let count = digits.len();
    match u32::from_str_radix(digits, 2) {
        Ok(value) if 1 <= count && count <= 32 => value << (32 - count),
        _ => 0,
    }
}

// The digits of a code, which has 16 at most.
fn code_text(alloc: Global, code: Code) -> Text {
    let value = code.value;
    let digits = format!(in alloc; "{value:016b}")?;
    let before = 16u32.saturating_sub(code.length) as usize;
    let digits = digits.as_str().get(before..).unwrap_or("");
    format!(in alloc; "{digits}")
}

fn token_text(alloc: Global, found: Option<FoundToken>) -> Text {
    match found {
        Some(found) => {
            let FoundToken {
                total,
                ones,
                length,
            } = found;
            format!(in alloc; "{total} {ones}, {length} bits")
        }
        None => format!(in alloc; "none"),
    }
}

fn found_text(alloc: Global, found: Option<Found>) -> Text {
    match found {
        Some(found) => {
            let Found { value, length } = found;
            format!(in alloc; "{value}, {length} bits")
        }
        None => format!(in alloc; "none"),
    }
}
