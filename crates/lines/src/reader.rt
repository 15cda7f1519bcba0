// The fields of a line, one after another.
ghost use Rattle.std.specs.Prelude.{◌≡◌, ℕ, ◌<◌, ◌≤◌, [], ◌∷◌, length, ◌≢◌, get_or, MatchOption};
ghost use Rattle.lines.specs.Format.{fields, fields_of};

const COMMA: u8 = b',';

// `place` is where the next field begins, past the line's end once the last one was read.
#[derive(Drop)]
pub struct FieldReader<'a> {
    line: &'a [u8],
    place: usize,
}

// How long the first field is: up to a comma or the line's end. A line is short, so its bytes are tried one by one.
fn field_len(rest: &[u8]) -> usize
    ensures within { result ≤ length rest.now }
    ensures before { (i : ℕ) → i < result → get_or rest.now i 0 ≢ 44 }
    ensures comma { result < length rest.now → get_or rest.now result 0 ≡ 44 }
{
    rest.iter()
        .position(|&byte| byte == COMMA)
        .unwrap_or(rest.len())
}

impl<'a> FieldReader<'a> {
    pub fn new(line: &'a [u8]) -> FieldReader<'a>
        ensures { fields_of result ≡ fields line.now }
    {
        FieldReader { line, place: 0 }
    }

    // The next field, unless all were read.
    pub fn next_field(&mut self) -> Option<&'a [u8]>
        ensures line { self.new.line.now ≡ self.old.line.now }
        ensures cases { MatchOption result
            ((fields_of self.old ≡ []) × (self.new.place ≡ self.old.place))
            (λ f. fields_of self.old ≡ f.now ∷ fields_of self.new) }
    {
        let rest = self.line.get(self.place..)?;
        let len = field_len(rest);
        self.place += len + 1;
        Some(&rest[..len])
    }
}
