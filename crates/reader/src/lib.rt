// A reader of fields (document 01, Table image): "Fields are packed without gaps, most significant bit first." Thin
// functions take it apart and leave the work to `bits`; whoever has an image takes one field after the other.
#![tactic(auto)]

ghost use Rattle.std.specs.Prelude.{◌≡◌, min, IfSome, IfNone};
ghost use Rattle.bits.specs.Found.{found_at, said_of_found};
ghost use Rattle.reader.specs.Places.{place_after};

// The image, and the bit at which the reader stands.
#[derive(Clone, Copy)]
pub struct FieldReader<'a> {
    pub image: &'a [u8],
    pub at: usize,
}

impl<'a> FieldReader<'a> {
    // A reader of this image that stands at bit `at`.
    pub fn new(image: &'a [u8], at: usize) -> FieldReader<'a>
        ensures { (result.image ≡ image.entry) × (result.at ≡ at) }
    {
        FieldReader { image, at }
    }

    // The bit at which it stands.
    pub fn place(&self) -> usize
        ensures { result ≡ self.now.at }
    {
        self.at
    }

    // The next field, of `width` bits. A width above 32 is taken for 32, here and below.
    pub fn next(&self, width: usize) -> Option<u32>
        ensures { said_of_found self.now.at result
            ≡ found_at self.now.image.now self.now.at (min width 32) }
    {
        bits::field_at(self.image, self.at, width)
    }

    // The reader moved past a field of `width` bits: to the greatest number, where the place lies past that.
    pub fn moved(self, width: usize) -> FieldReader<'a>
        ensures { (result.image ≡ self.entry.image) × (result.at ≡ place_after self.entry.at (min width 32)) }
    {
        FieldReader {
            at: self.at.saturating_add(width.min(32)),
            ..self
        }
    }

    // The next field taken: the reader then stands after it, or where it stood if the image ends inside or before it.
    pub fn take(&mut self, width: usize) -> Option<u32>
        ensures found { said_of_found self.old.at result
            ≡ found_at self.old.image.now self.old.at (min width 32) }
        ensures on { IfSome result (λ value. self.new.at ≡ place_after self.old.at (min width 32)) }
        ensures stays { IfNone result (self.new.at ≡ self.old.at) }
        ensures image { self.new.image ≡ self.old.image }
    {
        let value = self.next(width)?;
        *self = self.moved(width);
        Some(value)
    }
}
