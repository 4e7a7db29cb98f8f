// The stages of the LSF codebook (MIL-STD-3005, 5.3.4).
ghost use Rattle.std.specs.Prelude.{◌≡◌};
ghost use Rattle.codebook.specs.RowNumbers.{lsf_row_number};

// The number of a stage's row in the codebook; none where there is no such row.
#[tactic(auto, using(std::proofs::Common::tests), unfolding(crate::specs::Rows::stage_start))]
pub(crate) fn lsf_row_number(stage: u8, index: u8) -> Option<u16>
    ensures { result ≡ lsf_row_number stage index }
{
    // the rows before the stage, and its own
    let (start, rows) = match stage {
        1 => (0, 128),
        2 => (128, 64),
        3 => (192, 64),
        4 => (256, 64),
        _ => return None,
    };
    (index < rows).then_some(start + u16::from(index))
}
