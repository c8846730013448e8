ghost use Rattle.std.specs.Prelude.{◌≡◌, ◌≤◌, ◌<◌, length, get_or, None, IfSome};
ghost use Rattle.core_profile.specs.Counted.{counted};

use core_form::Site;

/// How many variables each function captures, in the order of sites: the numbers, or the sites themselves.
#[derive(Clone, Copy)]
pub enum Counts<'a> {
    Numbers(&'a [u64]),
    Sites(&'a [Site]),
}

impl<'a> Counts<'a> {
    /// That of this function, where there is one.
    pub fn of(self, site: usize) -> Option<u64>
        ensures some { IfSome result (λ count. (site < length (counted self.entry))
            × (get_or (counted self.entry) site 0 ≡ count)) }
        ensures none { result ≡ None → length (counted self.entry) ≤ site }
    {
        match self {
            Counts::Numbers(counts) => counts.get(site).copied(),
            Counts::Sites(sites) => match sites.get(site) {
                None => None,
                Some(site) => Some(site.captures.len() as u64),
            },
        }
    }
}
