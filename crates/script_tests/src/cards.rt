// Cards that several tests take.

// Two blocks with slots 0 and 1 open to each, which may not both take slot 0.
pub(crate) const TWO: &[u8] = b"blocks=2\nopen=3\nopen=3\nsheets=1\n\
kind=deny\nscope=0,1\nrows=1\nrow=0,0\nrules=0\nend=net\n";
