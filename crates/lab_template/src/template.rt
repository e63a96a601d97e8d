//! The texts around the data of a page.

/// The texts around the data of a page, each as its parts, one behind the other.
#[derive(Clone, Copy)]
pub struct Template<'a> {
    /// Before the data.
    pub start: &'a [&'a str],
    /// Behind the data and before the limits that the scripts name: the scripts that read the data.
    pub reading: &'a [&'a str],
    /// Behind the limits: the scripts that draw and show the data, and the end of the page.
    pub showing: &'a [&'a str],
}
