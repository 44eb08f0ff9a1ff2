// The words of the operations of each kind and of the constants.
ghost use Rattle.std.specs.Prelude.{Some};
ghost use Rattle.operations.specs.Words.{binary_word, constant_word, fetch_word, multiply_word, scan_word, shift_word, special_word};

use super::kinds::{Binary, Fetch, Multiply, Scan, Shift, Special};
use super::operands::Constant;
use std::fmt;

impl fmt::Display for Binary {
    ghost output = { λ binary. Some (binary_word binary) };

    fn fmt<W: fmt::Write>(&self, f: &mut fmt::Formatter<W>) -> fmt::Result {
        f.write_str(match self {
            Binary::Or => "or",
            Binary::And => "and",
            Binary::Xor => "xor",
            Binary::Add => "add",
            Binary::Sub => "sub",
            Binary::Subr => "subr",
            Binary::Addc => "addc",
            Binary::Subc => "subc",
            Binary::Subcr => "subcr",
        })
    }
}

impl fmt::Display for Multiply {
    ghost output = { λ multiply. Some (multiply_word multiply) };

    fn fmt<W: fmt::Write>(&self, f: &mut fmt::Formatter<W>) -> fmt::Result {
        f.write_str(match self {
            Multiply::Pass => "pass",
            Multiply::Mul => "mul",
            Multiply::Umul => "umul",
        })
    }
}

impl fmt::Display for Shift {
    ghost output = { λ shift. Some (shift_word shift) };

    fn fmt<W: fmt::Write>(&self, f: &mut fmt::Formatter<W>) -> fmt::Result {
        f.write_str(match self {
            Shift::Asr => "asr",
            Shift::Lsr => "lsr",
            Shift::Ror => "ror",
            Shift::Rorc => "rorc",
            Shift::Asl => "asl",
            Shift::Lsl => "lsl",
            Shift::Rol => "rol",
            Shift::Rolc => "rolc",
        })
    }
}

impl fmt::Display for Scan {
    ghost output = { λ scan. Some (scan_word scan) };

    fn fmt<W: fmt::Write>(&self, f: &mut fmt::Formatter<W>) -> fmt::Result {
        f.write_str(match self {
            Scan::First => "ff1",
            Scan::Ones => "popc",
        })
    }
}

impl fmt::Display for Special {
    ghost output = { λ special. Some (special_word special) };

    fn fmt<W: fmt::Write>(&self, f: &mut fmt::Formatter<W>) -> fmt::Result {
        f.write_str(match self {
            Special::FetchIp => "ip@",
            Special::StoreIp => "ip!",
            Special::FetchCount => "cc@",
            Special::StoreCount => "cc!",
        })
    }
}

impl fmt::Display for Fetch {
    ghost output = { λ fetch. Some (fetch_word fetch) };

    fn fmt<W: fmt::Write>(&self, f: &mut fmt::Formatter<W>) -> fmt::Result {
        f.write_str(match self {
            Fetch::Plain => "mul@",
            Fetch::Negated => "-mul@",
            Fetch::Added => "mul@+",
            Fetch::Subtracted => "-mul@+",
        })
    }
}

impl fmt::Display for Constant {
    ghost output = { λ constant. Some (constant_word constant) };

    fn fmt<W: fmt::Write>(&self, f: &mut fmt::Formatter<W>) -> fmt::Result {
        f.write_str(match self {
            Constant::Zero => "#0",
            Constant::MinusOne => "#-1",
            Constant::Max => "#$7FFFFFFF",
            Constant::Min => "#$80000000",
        })
    }
}
