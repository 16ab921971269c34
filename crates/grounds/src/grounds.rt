// The grounds over a net, which is lent: several grounds may share one.
ghost use Rattle.std.specs.Prelude.{◌<◌};
ghost use Rattle.search.specs.Nets.{links_in, lawful_in};
ghost use Rattle.grounds.specs.Views.{slotted, one_way};

use search::ground::Ground;
use search::links::Ends;
use search::net::Net;

// Links that are open both ways while they have slots. (A slot is a unit of a link's capacity.)
#[derive(Drop)]
pub struct Slotted<'a> {
    pub net: &'a Net<'a, Ends>,
    pub slots: &'a [u32],
}

// Kept: what every ground asks of its net is one call each; a default in the trait would need the type of the links in it.
// A link's ends are read as a value and not through `Net::ends`: so the compiler knows that the link is in range, and
// does not test that again where `is_open` looks for its slots.
impl<'a> Ground for Slotted<'a> {
    ghost graph = { λ s. slotted (links_in s.net.now) s.slots.now };

    ghost lawful = { λ s. lawful_in s.net.now };

    fn links(&self) -> u16 {
        self.net.count()
    }

    fn ends(&self, link: u16) -> Ends {
        self.net.links()[link as usize]
    }

    fn is_open(&self, _cabinet: u8, link: u16) -> bool {
        self.slots
            .get(link as usize)
            .is_some_and(|slots| *slots > 0)
    }

    fn links_at(&self, cabinet: u8) -> &[u16] {
        self.net.row(cabinet)
    }
}

// Links that are open from their first end alone.
#[derive(Drop)]
pub struct OneWay<'a> {
    pub net: &'a Net<'a, Ends>,
}

impl<'a> Ground for OneWay<'a> {
    ghost graph = { λ s. one_way (links_in s.net.now) };

    ghost lawful = { λ s. lawful_in s.net.now };

    fn links(&self) -> u16 {
        self.net.count()
    }

    fn ends(&self, link: u16) -> Ends {
        self.net.links()[link as usize]
    }

    fn is_open(&self, cabinet: u8, link: u16) -> bool {
        self.net.ends(link).first == cabinet
    }

    fn links_at(&self, cabinet: u8) -> &[u16] {
        self.net.row(cabinet)
    }
}
