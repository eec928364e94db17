// What is asked.

/// The names of the files, the token after which the page begins, if one is given, and how many answers it may
/// have.
#[derive(Clone, Copy)]
pub struct Asked<'a> {
    pub request: &'a str,
    pub wallet: &'a str,
    pub clients: &'a str,
    pub after: Option<&'a str>,
    pub count: u32,
}
