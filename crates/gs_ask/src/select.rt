use gs_terms::{Method, Place, Term};

/// What a selector selects. Go specification, "Selectors".
#[derive(Drop)]
pub enum Selected {
    /// A field's type and place, and whether the way to it goes through a pointer.
    Field(Term, Place, bool),
    /// A method, and whether the way to it goes through a pointer.
    Method(Method, bool),
    /// Several fields or methods at the least depth that has one.
    Two,
    /// No field and no method.
    None,
}
