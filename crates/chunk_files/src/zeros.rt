ghost use Rattle.std.specs.Prelude.{◌≡◌};
ghost use Rattle.chunk_files.specs.Zeros.{is_all_zero};

// Whether no byte is other than zero.
pub fn all_zero(bytes: &[u8]) -> bool
    ensures { result ≡ is_all_zero bytes.now }
{
    bytes.iter().all(|byte| *byte == 0)
}
