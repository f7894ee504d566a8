// Intra prediction (H.264, 8.3) and the prediction of vectors (8.4.1).
use crate::line::{Line, eight, four, number, signed, sixteen, split};
use crate::told::{Text, hex_or_none, shown};
use cb_types::Vector;
use intra_pred::{predict_chroma, predict4, predict16};
use mv_pred::{Near, predict, skip};
use std::alloc::Global;

/// Predicts samples or a vector, if the line asks for it.
pub fn answer(alloc: Global, line: Line<'_>) -> Option<Text> {
    let [first, second, third, fourth, fifth, sixth, seventh, _] = line.words;
    let mode = number(first);
    let index = number(second);
    let corner = fourth.parse().ok();
    match line.name {
        "predict4" => Some(block4(alloc, mode, [second, third, fourth], fifth)),
        "predict16" => {
            let block = predict16(mode, sixteen(second), sixteen(third), corner);
            Some(hex_or_none(alloc, &block))
        }
        "predict_chroma" => {
            let block = predict_chroma(mode, eight(second), eight(third), corner);
            Some(hex_or_none(alloc, &block))
        }
        "vector" if mode <= 2 && index <= 1 => {
            let a = near_of(fourth);
            let b = near_of(fifth);
            let c = near_of(sixth);
            let d = near_of(seventh);
            let vector = predict(mode, index, number(third), a, b, c, d);
            Some(shown(alloc, Some((vector.x, vector.y))))
        }
        "skip_vector" => {
            let vector = skip(
                near_of(first),
                near_of(second),
                near_of(third),
                near_of(fourth),
            );
            Some(shown(alloc, Some((vector.x, vector.y))))
        }
        _ => None,
    }
}

fn block4(alloc: Global, mode: u32, sides: [&str; 3], corner: &str) -> Text {
    let [left, top, right] = sides;
    let corner = corner.parse().ok();
    let block = predict4(mode, four(left), four(top), four(right), corner);
    hex_or_none(alloc, &block)
}

// A neighbour: `intra`, or its reference and its vector, as 0:4:-8; each other word is for one that is missing.
fn near_of(word: &str) -> Near {
    if word == "intra" {
        return Near::Intra;
    }
    let (reference, vector) = split(word, ':');
    let (x, y) = split(vector, ':');
    match reference.parse() {
        Ok(reference) => Near::Inter {
            reference,
            vector: Vector {
                x: signed(x),
                y: signed(y),
            },
        },
        Err(_) => Near::Missing,
    }
}
