use ring128::Words;

/// The tables of a scan: one for the firsts of a row's cells and one for their seconds, each as long as the column is wide.
#[derive(Drop)]
pub struct Tables {
    pub zero: Words,
    pub one: Words,
}
