/// One of the two holders of a key pair. The values of their keys add up to the function that the pair
/// stands for.
#[derive(Clone, Copy, Debug, PartialEq, Eq)]
pub enum Party {
    Zero,
    One,
}
