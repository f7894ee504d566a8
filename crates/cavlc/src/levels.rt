// The levels of a block: the signs of the trailing ones, and the levels behind them. H.264, 9.2.2.
ghost use Rattle.std.specs.Prelude.{◌≡◌, ◌≢◌, ◌≤◌, ◌<◌, ◌+◌, ◌-◌, ◌^◌, [], ◌∷◌, ◌++◌, All, OnErr, OnOk, length, map, option_map, pos, take};
ghost use Rattle.bit_io.specs.Bits.{u};
ghost use Rattle.cavlc.specs.Levels.{HasLevelCode, IsLevelWord, escape, first_level, level_bits, level_code, level_word, levels_bits, next_level, sign, suffix_size, word_bits, word_code};
ghost use Rattle.cavlc.specs.Parts.{AreLevels, Gives, IsOne, IsLonger};
ghost use Rattle.cavlc.specs.Turns.{AreInTurn, in_turn};

use bit_io::{BitReader, BitWriter};
use std::alloc::AllocError;

// How the next level is spelled.
#[derive(Clone, Copy)]
pub(crate) struct LevelState {
    pub(crate) suffix_length: u32,
    // what the level's levelCode can't be below
    pub(crate) least: u32,
}

// level_prefix, and level_suffix with its number of bits.
#[derive(Clone, Copy)]
pub(crate) struct LevelWord {
    pub(crate) prefix: u32,
    pub(crate) size: u32,
    pub(crate) suffix: u32,
}

impl LevelState {
    #[inline]
    pub(crate) fn first(total: u32, ones: u32) -> LevelState
        ensures { result ≡ first_level total ones }
    {
        LevelState {
            suffix_length: if total > 10 && ones < 3 { 1 } else { 0 },
            least: if ones < 3 { 2 } else { 0 },
        }
    }

    #[inline]
    pub(crate) fn behind(self, level: i32) -> LevelState
        requires { self.suffix_length ≤ 6 }
        ensures { result ≡ next_level self level }
    {
        let now = self.suffix_length.max(1);
        let more = now < 6 && level.unsigned_abs() > 3 << (now - 1);
        LevelState {
            suffix_length: if more { now + 1 } else { now },
            least: 0,
        }
    }
}

// Reads so many levels, the first of which are trailing ones.
#[inline]
pub(crate) fn read_levels(reader: &mut BitReader, total: u32, ones: u32) -> Option<[i32; 16]>
    requires most { total ≤ 16 }
    requires few { ones ≤ 3 }
    requires within { ones ≤ total }
    ensures { Gives (AreLevels total ones) (levels_bits total ones) reader.old (option_map (λ levels. take total levels) result) reader.new }
{
    let mut levels = [0; 16];
    let signs = reader.read_u(ones)?;
    put_ones(signs, ones, &mut levels);
    let mut state = LevelState::first(total, ones);
    for i in ones..total {
        let level = read_level(reader, state)?;
        levels[i as usize] = level;
        state = state.behind(level);
    }
    Some(levels)
}

// Puts the trailing ones that have these signs.
#[inline]
fn put_ones(signs: u32, ones: u32, levels: &mut [i32; 16])
    requires few { ones ≤ 3 }
    ensures signs { map sign (take ones levels.new) ≡ u signs ones }
    ensures ones { All IsOne (take ones levels.new) }
{
    for i in 0..ones {
        levels[i as usize] = one_of((signs >> (ones - 1 - i)) % 2 == 1);
    }
}

#[inline]
fn one_of(minus: bool) -> i32
    ensures sign { sign result ≡ minus }
    ensures one { IsOne result }
{
    if minus { -1 } else { 1 }
}

#[inline]
fn read_level(reader: &mut BitReader, state: LevelState) -> Option<i32>
    requires suffix_length { state.suffix_length ≤ 6 }
    requires least { state.least ≤ 2 }
    ensures { Gives (HasLevelCode state) (level_bits state) reader.old result reader.new }
{
    let word = read_word(reader, state.suffix_length)?;
    let code = code_of(word.prefix, word.suffix, state.suffix_length);
    Some(level_of(code + state.least))
}

#[inline]
fn read_word(reader: &mut BitReader, suffix_length: u32) -> Option<LevelWord>
    requires { suffix_length ≤ 6 }
    ensures { Gives (IsLevelWord suffix_length) word_bits reader.old result reader.new }
{
    let window = reader.peek(32);
    let prefix = window.leading_zeros();
    if prefix > 15 {
        return None;
    }
    let size = size_of(prefix, suffix_length);
    let length = prefix + 1 + size;
    if !reader.holds(length) {
        return None;
    }
    reader.skip(length);
    let suffix = (window >> (32 - length)) - (1 << size);
    Some(LevelWord {
        prefix,
        size,
        suffix,
    })
}

// The number of bits of level_suffix.
#[inline]
fn size_of(prefix: u32, suffix_length: u32) -> u32
    requires { suffix_length ≤ 6 }
    ensures size { result ≡ suffix_size prefix suffix_length }
    ensures few { result ≤ 12 }
{
    if prefix == 15 {
        12
    } else if prefix == 14 && suffix_length == 0 {
        4
    } else {
        suffix_length
    }
}

// The code that level_prefix and level_suffix give.
#[inline]
fn code_of(prefix: u32, suffix: u32, suffix_length: u32) -> u32
    requires prefix { prefix ≤ 15 }
    requires suffix { suffix < 2 ^ 12 }
    requires suffix_length { suffix_length ≤ 6 }
    ensures { result ≡ word_code prefix suffix suffix_length }
{
    let code = (prefix << suffix_length) + suffix;
    if prefix == 15 && suffix_length == 0 {
        code + 15
    } else {
        code
    }
}

// The level with this levelCode.
#[inline]
fn level_of(code: u32) -> i32
    requires { code < 2 ^ 31 }
    ensures code { level_code result ≡ code }
    ensures nonzero { result ≢ pos 0 }
{
    let size = (code / 2 + 1) as i32;
    if code % 2 == 0 { size } else { -size }
}

// Writes levels, the first of which are trailing ones.
pub(crate) fn put_levels(out: &mut BitWriter, ones: u32, levels: &[i32]) -> Result<(), AllocError>
    requires levels { AreLevels (length levels.now) ones levels.now }
    requires most { length levels.now ≤ 16 }
    ensures ok { OnOk result (out.new ≡ out.old ++ levels_bits (length levels.now) ones levels.now) }
    ensures err { OnErr result (IsLonger out.old out.new) }
{
    put_signs(out, &levels[..ones as usize])?;
    let state = LevelState::first(levels.len() as u32, ones);
    put_further(out, state, &levels[ones as usize..])
}

fn put_signs(out: &mut BitWriter, ones: &[i32]) -> Result<(), AllocError>
    ensures ok { OnOk result (out.new ≡ out.old ++ map sign ones.now) }
    ensures err { OnErr result (IsLonger out.old out.new) }
{
    for level in ones {
        put_sign(out, *level)?;
    }
    Ok(())
}

fn put_sign(out: &mut BitWriter, level: i32) -> Result<(), AllocError>
    ensures ok { OnOk result (out.new ≡ out.old ++ sign level ∷ []) }
    ensures err { OnErr result (out.new ≡ out.old) }
{
    if is_minus(level) {
        out.put_u(1, 1)
    } else {
        out.put_u(0, 1)
    }
}

fn is_minus(level: i32) -> bool
    ensures { result ≡ sign level }
{
    level < 0
}

// Writes the levels behind the trailing ones.
fn put_further(out: &mut BitWriter, first: LevelState, levels: &[i32]) -> Result<(), AllocError>
    requires suffix_length { first.suffix_length ≤ 6 }
    requires least { first.least ≤ 2 }
    requires codes { AreInTurn HasLevelCode next_level first levels.now }
    ensures ok { OnOk result (out.new ≡ out.old ++ in_turn level_bits next_level first levels.now) }
    ensures err { OnErr result (IsLonger out.old out.new) }
{
    let mut state = first;
    for level in levels {
        put_level(out, state, *level)?;
        state = state.behind(*level);
    }
    Ok(())
}

fn put_level(out: &mut BitWriter, state: LevelState, level: i32) -> Result<(), AllocError>
    requires suffix_length { state.suffix_length ≤ 6 }
    requires least { state.least ≤ 2 }
    requires code { HasLevelCode state level }
    ensures ok { OnOk result (out.new ≡ out.old ++ level_bits state level) }
    ensures err { OnErr result (out.new ≡ out.old) }
{
    let code = level_number(level) - state.least;
    put_word(out, word_of(code, state.suffix_length))
}

fn put_word(out: &mut BitWriter, word: LevelWord) -> Result<(), AllocError>
    requires prefix { word.prefix ≤ 15 }
    requires size { word.size ≤ 12 }
    requires suffix { word.suffix < 2 ^ word.size }
    ensures ok { OnOk result (out.new ≡ out.old ++ word_bits word) }
    ensures err { OnErr result (out.new ≡ out.old) }
{
    let one = 1 << word.size;
    out.put_u(one + word.suffix, word.prefix + 1 + word.size)
}

// The levelCode of a level other than 0.
fn level_number(level: i32) -> u32
    requires nonzero { level ≢ pos 0 }
    requires small { level_code level < 2 ^ 31 }
    ensures { result ≡ level_code level }
{
    let twice = 2 * (level.unsigned_abs() - 1);
    if level > 0 { twice } else { twice + 1 }
}

// The prefix and the suffix of a code.
fn word_of(code: u32, suffix_length: u32) -> LevelWord
    requires suffix_length { suffix_length ≤ 6 }
    requires prefix { code < escape suffix_length + 2 ^ 12 }
    ensures word { result ≡ level_word suffix_length code }
    ensures fits { IsLevelWord suffix_length result }
    ensures size { result.size ≤ 12 }
{
    let escape = escape_of(suffix_length);
    if code >= escape {
        LevelWord {
            prefix: 15,
            size: 12,
            suffix: code - escape,
        }
    } else if suffix_length > 0 {
        LevelWord {
            prefix: code >> suffix_length,
            size: suffix_length,
            suffix: code % (1 << suffix_length),
        }
    } else if code < 14 {
        LevelWord {
            prefix: code,
            size: 0,
            suffix: 0,
        }
    } else {
        LevelWord {
            prefix: 14,
            size: 4,
            suffix: code - 14,
        }
    }
}

// The first code with prefix 15.
fn escape_of(suffix_length: u32) -> u32
    requires { suffix_length ≤ 6 }
    ensures { result ≡ escape suffix_length }
{
    if suffix_length == 0 {
        30
    } else {
        15 << suffix_length
    }
}
