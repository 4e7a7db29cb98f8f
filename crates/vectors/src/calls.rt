// The call of a vector, by its kind.
ghost use Rattle.std.specs.Prelude.{◌≤◌};

use crate::codebooks::{HELD, write_codebook};
use crate::orders::order_fits;
use crate::vector::Vector;
use crate::{
    choosing, frames, orders, packing, parameters, receiving, rows, sessions, short, soft_words,
    state, texts, values,
};
use sets::ParameterSet;

// A call with the set in bytes 1 to 11; where these are those of no set, no call agrees.
fn with_set<F: FnOnce(&Vector, ParameterSet) -> bool>(vector: &Vector, agrees: F) -> bool
    requires { F.IsAlwaysCallable agrees }
{
    match set_bytes::read(vector.part(1, 11)) {
        Ok(set) => agrees(vector, set),
        Err(_) => false,
    }
}

// The same with an order, of at most 60 entries.
fn with_order<F: FnOnce(&Vector, ParameterSet) -> bool>(vector: &Vector, agrees: F) -> bool
    requires { F.IsAlwaysCallable agrees }
{
    order_fits(vector) && with_set(vector, agrees)
}

// A call with a codebook of so many numbers.
fn with_numbers<F: FnOnce(&Vector, &[i64]) -> bool>(vector: &Vector, size: usize, agrees: F) -> bool
    requires { (size ≤ 3201) × F.IsAlwaysCallable agrees }
{
    let mut codebook = [HELD; 3201];
    write_codebook(vector, &mut codebook[..size]);
    agrees(vector, &codebook[..size])
}

// The same with the size that the vector has, which is tested before there is a buffer: no vector has more than 3,201 numbers.
fn with_codebook<F: FnOnce(&Vector, &[i64]) -> bool>(vector: &Vector, agrees: F) -> bool
    requires { F.IsAlwaysCallable agrees }
{
    let size = vector.number(16, 2);
    size <= 3201 && with_numbers(vector, size, agrees)
}

// Whether the libraries answer as the vector says; no vector of another kind agrees. The kinds are numbers, as tests/reference
// writes them into the files of vectors.
pub(crate) fn agrees(vector: &Vector) -> bool {
    match vector.kind() {
        1 => with_order(vector, packing::pack_agrees),
        2 => short::class_agrees(vector),
        3 => short::code_agrees(vector),
        4 => short::word_agrees(vector),
        5 => short::parity_agrees(vector),
        6 => short::first_level_agrees(vector),
        7 => short::level_agrees(vector),
        8 => choosing::choice_agrees(vector),
        9 => with_order(vector, receiving::by_value_agrees),
        10 => order_fits(vector) && frames::frame_agrees(vector),
        11 => order_fits(vector) && frames::logical_agrees(vector),
        12 => with_set(vector, parameters::ranges_agree),
        13 => frames::reading_agrees(vector),
        14 => with_set(vector, state::tests_agree),
        15 => state::fresh_agrees(vector),
        16 => with_codebook(vector, rows::lsf_row_agrees),
        17 => with_codebook(vector, rows::magnitude_row_agrees),
        18 => with_codebook(vector, values::lsf_values_agree),
        19 => with_codebook(vector, values::magnitudes_agree),
        20 => with_codebook(vector, texts::lsf_agrees),
        21 => with_codebook(vector, texts::magnitudes_agree),
        22 => with_order(vector, receiving::in_place_agrees),
        23 => parameters::reading_agrees(vector),
        24 => parameters::writing_agrees(vector),
        25 => sessions::parsing_agrees(vector),
        26 => sessions::reading_agrees(vector),
        27 => sessions::write_agrees(vector),
        28 => sessions::header_agrees(vector),
        29 => sessions::line_agrees(vector),
        30 => soft_words::choice_agrees(vector),
        31 => soft_words::reading_agrees(vector),
        32 => with_order(vector, receiving::soft_agrees),
        33 => with_order(vector, receiving::soft_in_place_agrees),
        34 => with_set(vector, state::taken_over_agrees),
        35 => order_fits(vector) && soft_words::taking_agrees(vector),
        36 => order_fits(vector) && orders::list_agrees(vector),
        37 => orders::default_agrees(vector),
        _ => false,
    }
}
