/// A value with a journal, a list of numbers that only grows, and a tag, what never changes of the value.
pub trait Journaled {
    ghost use Rattle.std.specs.Prelude.{◌≡◌, ℕ, List, length};

    /// The type of the tag. Contracts name tags; no value of this type is made.
    type Tag;

    ghost journal: { Self → List ℕ };

    ghost tag: { Self → Self.Tag };

    /// The journal's length.
    fn count(&self) -> u64
        ensures { result ≡ length (journal self.now) };
}
