use gsl_base::List;

/// A value: a word, or the values of the components, elements or members that it has.
#[derive(Debug, Drop)]
pub enum Value {
    Word(u32),
    Many(List<Value>),
}

/// Values in their order.
pub type Values = List<Value>;
