// Bytes as text, for the programs.
#![tactic(auto)]

use std::fmt;

// Bytes in hexadecimal, sixteen a line.
#[derive(Clone, Copy)]
pub struct HexLines<'a>(pub &'a [u8]);

impl fmt::Display for HexLines<'_> {
    fn fmt<W: fmt::Write>(&self, f: &mut fmt::Formatter<W>) -> fmt::Result {
        for line in self.0.chunks(16) {
            for (i, byte) in line.iter().enumerate() {
                if i > 0 {
                    write!(f, " ")?;
                }
                write!(f, "{byte:02x}")?;
            }
            writeln!(f)?;
        }
        Ok(())
    }
}

#[cfg(test)]
mod tests {
    use super::*;
    use std::test::Fail;

    #[test]
    fn sixteen_a_line(rt: HostRuntime) -> Result<(), Fail> {
        let mut bytes = [0x0a; 17];
        bytes[1] = 0xff;
        let text = format!(in rt.alloc(); "{}", HexLines(&bytes))?;
        let lines = "0a ff 0a 0a 0a 0a 0a 0a 0a 0a 0a 0a 0a 0a 0a 0a\n0a\n";
        assert_eq!(rt; text.as_str(), lines);
        let none = format!(in rt.alloc(); "{}", HexLines(&[]))?;
        assert_eq!(rt; none.as_str(), "");
        Ok(())
    }
}
