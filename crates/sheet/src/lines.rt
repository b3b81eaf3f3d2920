// The lines of a sheet: a refusal's number and place, or a route's cost, where its minutes go, and its links.
ghost use Rattle.std.specs.Prelude.{[], ◌∷◌};
ghost use Rattle.book.specs.Check.{number_of, place_of};
ghost use Rattle.walk.specs.Walks.{figures_of};
ghost use Rattle.sheet.specs.Line.{further, line};
ghost use Rattle.sheet.specs.Sheet.{fields_of};
ghost use Rattle.sheet.specs.steps.Storing.{Room, Put};

use super::Page;
use search::Refusal;
use walk::Split;

const NEWLINE: u8 = b'\n';

impl Page<'_> {
    // A field that is not the first, after its blank.
    #[tactic(auto, using(crate::proofs::LineLaws::length_field, crate::proofs::LineLaws::field_put))]
    fn put_field(&mut self, n: u64)
        requires { Room self.old (further (n ∷ [])) }
        ensures { Put self.old (further (n ∷ [])) self.new }
    {
        self.put_byte(b' ');
        self.put_decimal(n);
    }

    #[tactic(auto, using(crate::proofs::LineLaws::all_put, crate::proofs::LineLaws::taken_within))]
    fn put_links(&mut self, links: &[u16])
        requires { Room self.old (further links.now) }
        ensures { Put self.old (further links.now) self.new }
    {
        for link in links {
            self.put_field(u64::from(*link));
        }
    }

    #[tactic(auto, using(crate::proofs::LineLaws::length_two, crate::proofs::LineLaws::refusal_put))]
    pub fn put_refusal(&mut self, found: Refusal)
        requires { Room self.old (line (number_of found ∷ place_of found ∷ [])) }
        ensures { Put self.old (line (number_of found ∷ place_of found ∷ [])) self.new }
    {
        self.put_decimal(u64::from(found.number()));
        // std has no conversion of a usize to 64 bits that cannot fail
        self.put_field(found.place() as u64);
        self.put_byte(NEWLINE);
    }

    // A line of one number.
    #[tactic(auto, using(crate::proofs::LineLaws::length_one, crate::proofs::LineLaws::number_put))]
    pub fn put_number(&mut self, n: u64)
        requires { Room self.old (line (n ∷ [])) }
        ensures { Put self.old (line (n ∷ [])) self.new }
    {
        self.put_decimal(n);
        self.put_byte(NEWLINE);
    }

    // The four figures, each after its blank.
    #[tactic(auto, using(crate::proofs::LineLaws::length_four, crate::proofs::LineLaws::split_put))]
    fn put_split(&mut self, split: Split)
        requires { Room self.old (further (figures_of split)) }
        ensures { Put self.old (further (figures_of split)) self.new }
    {
        self.put_field(u64::from(split.ride));
        self.put_field(u64::from(split.wait));
        self.put_field(u64::from(split.walk));
        self.put_field(u64::from(split.extra));
    }

    #[tactic(auto, using(crate::proofs::LineLaws::length_route))]
    pub fn put_route(&mut self, cost: u32, split: Split, links: &[u16])
        requires { Room self.old (line (fields_of cost split links.now)) }
        ensures { Put self.old (line (fields_of cost split links.now)) self.new }
    {
        self.put_decimal(0);
        self.put_field(u64::from(cost));
        self.put_split(split);
        // a cast, as for a refusal's place
        self.put_field(links.len() as u64);
        self.put_links(links);
        self.put_byte(NEWLINE);
    }
}
