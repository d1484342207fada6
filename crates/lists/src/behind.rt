// Each element of a list, with those behind it. `all` over it asks a closure of each, one that holds values too; a function that took the
// closure would have a `requires`, that it may be called.
ghost use Rattle.std.specs.Iterator.{YieldsFirstBy, item_count};
ghost use Rattle.lists.specs.Lists.{behind};

#[derive(Drop)]
pub struct Behind<'a, T> {
    pub rest: &'a [T],
}

impl<'a, T> Iterator for Behind<'a, T> {
    type Item = (&'a T, &'a [T]);

    ghost next_gives = { YieldsFirstBy (λ i. (i.0.now, i.1.now)) (λ s. behind s.rest.now) };

    ghost remaining = { item_count (λ s. behind s.rest.now) };

    #[tactic(auto, unfolding(crate::specs::Lists::behind))]
    fn next(&mut self) -> Option<(&'a T, &'a [T])> {
        let (x, others) = self.rest.split_first()?;
        self.rest = others;
        Some((x, others))
    }
}

#[cfg(test)]
mod tests {
    use super::*;

    // Whether no two of the numbers are within a distance of one another: the closure holds the distance.
    fn spread(xs: &[u32], distance: u32) -> bool {
        Behind { rest: xs }.all(|(x, others)| others.iter().all(|y| x.abs_diff(*y) > distance))
    }

    #[test]
    fn each_is_set_beside_those_behind_it(rt: HostRuntime) {
        assert!(rt; spread(&[], 3), "of none");
        assert!(rt; spread(&[7], 3), "of one");
        assert!(rt; spread(&[1, 5, 9], 3), "4 apart");
        assert!(rt; !spread(&[1, 5, 9], 4), "not more than 4 apart");
        assert!(rt; !spread(&[1, 9, 5, 1], 0), "the first and the last");
        assert!(rt; !spread(&[9, 1, 5, 5], 0), "the last two");
    }
}
