// Where the registers of a formula start: what travels from function to function as one.

// The register that is chosen, and the list that has the values of the others.
#[derive(Clone, Copy)]
pub struct Starts<'a> {
    pub chosen: &'a [u8],
    pub list: &'a [u8],
}
