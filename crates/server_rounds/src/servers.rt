/// The shelves of the three servers, which have equal numbers of rows. At each server the first shelf begins with chunk 0, and
/// each goes on from the one before it.
#[derive(Drop)]
pub struct Servers<S> {
    pub zero: Vec<S>,
    pub one: Vec<S>,
    pub two: Vec<S>,
}
