// What the fields of a row may hold.

// The section whose rows a field's numbers stand for.
#[derive(Clone, Copy, Debug, PartialEq, Eq)]
pub enum Section {
    Name,
    Expression,
    Statement,
    Query,
}

// What a field holds: the number of a row of a section, or nothing where the field is not listed.
#[derive(Clone, Copy)]
pub struct Field {
    pub section: Option<Section>,
    // It may not be 0.
    pub set: bool,
    // It is a comprehension's term, key or value, which lies in the comprehension's query.
    pub term: bool,
    // It is the first row of a chain.
    pub chain: bool,
    // It, or every member of the chain, is a Var.
    pub var: bool,
    // The chain alternates key and value.
    pub pairs: bool,
}

// What the fields of a kind hold.
#[derive(Clone, Copy)]
pub struct KindFields {
    pub name: Field,
    pub first: Field,
    pub second: Field,
    pub third: Field,
}

// What the fields of a form hold.
#[derive(Clone, Copy)]
pub struct FormFields {
    pub first: Field,
    pub second: Field,
    pub third: Field,
    pub query: Field,
}
