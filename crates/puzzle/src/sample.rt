ghost use Rattle.std.specs.Prelude.{◌≡◌};
ghost use Rattle.puzzle.specs.Sample.{sample_words, Sample};

/// The words of the sample board: two by two cells, cell 1 less than cell 2, and its one solution as the claim.
pub fn sample_words() -> [u32; 7]
    ensures words { result ≡ sample_words }
    ensures sample { Sample }
{
    [
        0x1102_0000,
        0x3001_0020,
        0x5001_0100,
        0x5002_0200,
        0x5003_0200,
        0x5004_0100,
        0xF000_0000,
    ]
}
