// One stream's shares in their direction are a ground for the search: a step is open where a share runs along it.
ghost use Rattle.std.specs.Prelude.{◌≡◌, length};
ghost use Rattle.search.specs.Nets.{links_in, lawful_in};
ghost use Rattle.sheet.specs.Routes.{CarriedBy, runs_out};

use mesh::row::Row;
use search::ground::Ground;
use search::links::Ends;
use search::net::Net;

// Whether a link's share runs out of the cabinet over it.
fn runs_out(link: Row, share: i32, cabinet: u8) -> bool
    ensures { result ≡ runs_out link share cabinet }
{
    (link.low == cabinet && share > 0) || (link.high == cabinet && share < 0)
}

// The links with one stream's shares, one for each.
#[derive(Drop)]
pub(crate) struct Carried<'a> {
    pub(crate) net: Net<'a, Row>,
    pub(crate) shares: &'a [i32],
    ghost long: { length shares.now ≡ length (links_in net) },
}

// Kept: what every ground asks of its net is one call each; a default in the trait would need the type of the links in it.
impl<'a> Ground for Carried<'a> {
    ghost graph = { λ c. CarriedBy (links_in c.net) c.shares.now };

    ghost lawful = { λ c. lawful_in c.net };

    fn links(&self) -> u16 {
        self.net.count()
    }

    fn ends(&self, link: u16) -> Ends {
        self.net.ends(link)
    }

    fn is_open(&self, cabinet: u8, link: u16) -> bool {
        let link = usize::from(link);
        runs_out(self.net.links()[link], self.shares[link], cabinet)
    }

    fn links_at(&self, cabinet: u8) -> &[u16] {
        self.net.row(cabinet)
    }
}
