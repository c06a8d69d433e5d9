// What a slice of bytes holds.
ghost use Rattle.bits.specs.Bits.{Bytes};

// That each element is below 256: where one is read, the check knows it of all.
pub fn are_bytes(file: &[u8])
    ensures { Bytes file.now }
{
    if file.len() > 0 {
        let _first = file[0];
    }
}
