//! The plain numbers.

ghost use Rattle.std.specs.Prelude.{◌≡◌};
ghost use Rattle.lustats.specs.Text.{site_counts, link_counts, no_site, no_link};

/// What the ends of a site's links counted together.
#[derive(Clone, Copy, Debug, Drop, PartialEq, Eq)]
pub struct SiteCounts {
    /// How many messages the site put.
    pub put: u64,
    /// How many messages of its links found the link full when the site was about to put them.
    pub waited_full: u64,
    /// How many messages the site took.
    pub taken: u64,
    /// How many messages of its links weren't there when the site was about to take them.
    pub waited_empty: u64,
}

/// What the two ends of a link counted.
#[derive(Clone, Copy, Debug, Drop, PartialEq, Eq)]
pub struct LinkCounts {
    /// How many messages were put.
    pub passed: u64,
    /// The greatest number of messages in the link that one of its ends saw.
    pub most: u64,
}

/// What a run counted: for each site, and for each link, by number.
#[derive(Drop)]
pub struct Counts {
    pub sites: Vec<SiteCounts>,
    pub links: Vec<LinkCounts>,
}

/// The counts of a site; none where there is no such site.
pub(crate) fn site_counts(counts: &Counts, site: u8) -> SiteCounts
    ensures { result ≡ site_counts counts.now site }
{
    match counts.sites.get(usize::from(site)) {
        Some(found) => *found,
        None => SiteCounts {
            put: 0,
            waited_full: 0,
            taken: 0,
            waited_empty: 0,
        },
    }
}

/// The counts of a link; none where there is no such link.
pub(crate) fn link_counts(counts: &Counts, link: usize) -> LinkCounts
    ensures { result ≡ link_counts counts.now link }
{
    match counts.links.get(link) {
        Some(found) => *found,
        None => LinkCounts { passed: 0, most: 0 },
    }
}
