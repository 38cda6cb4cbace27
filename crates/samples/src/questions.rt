//! Classes of links, how many links have a class, and trials.

#[cfg(test)]
pub mod tests {
    use crate::drawn::{link, sample};
    use crate::outcomes::tests::{in_network, opened, outcome};
    use networks::Network;
    use std::process::Abort;
    use std::test::Fail;
    use weights::Metres;

    const A: Option<char> = Some('A');

    const S: Option<char> = Some('S');

    const N: Option<char> = Some('N');

    // The classes of the first five links, none for those that are not there, and how many links are A, S and N.
    fn classes(
        rt: &impl Abort,
        network: &Network<Metres>,
        letters: [Option<char>; 5],
        counts: [usize; 3],
    ) {
        let classes = [0, 1, 2, 3, 4].map(|link| network.class(link).ok());
        assert_eq!(rt;
            classes.map(|class| class.map(|class| class.letter())),
            letters
        );
        let counted = ['A', 'S', 'N'].map(|letter| network.count_class(letter).ok());
        assert_eq!(rt; counted, counts.map(Some));
    }

    #[test]
    fn classes_and_their_counts(rt: HostRuntime) -> Result<(), Fail> {
        let level = opened(2, &[link(0, 1, 7), link(0, 1, 7)])?;
        classes(&rt, &level, [S, S, None, None, None], [0, 2, 0]);
        let unequal = opened(2, &[link(0, 1, 7), link(0, 1, 8)])?;
        classes(&rt, &unequal, [A, N, None, None, None], [1, 0, 1]);
        let triangle = opened(3, &[link(0, 1, 1), link(1, 2, 2), link(0, 2, 2)])?;
        classes(&rt, &triangle, [A, S, S, None, None], [1, 2, 0]);
        classes(&rt, &opened(4, &sample())?, [S, S, S, A, S], [1, 4, 0]);
        classes(&rt, &opened(2, &[])?, [None; 5], [0, 0, 0]);
        let apart = opened(3, &[link(0, 1, 7)])?;
        // There is no tree.
        classes(&rt, &apart, [N, None, None, None, None], [0, 0, 1]);
        Ok(())
    }

    // What a trial answers, and what its four places hold afterwards that all held 9 before.
    fn tries(
        rt: &impl Abort,
        network: &mut Network<Metres>,
        link: u16,
        joined: bool,
        list: [u16; 4],
    ) {
        let mut places = [9; 4];
        assert_eq!(rt; network.trial(link, &mut places).ok(), Some(joined));
        assert_eq!(rt; places, list);
    }

    #[test]
    fn trials_close_one_link_and_put_it_back(rt: HostRuntime) -> Result<(), Fail> {
        let mut network = opened(4, &sample())?;
        tries(&rt, &mut network, 3, true, [0, 1, 4, 9]);
        tries(&rt, &mut network, 0, true, [3, 1, 2, 9]);
        tries(&rt, &mut network, 4, true, [3, 0, 1, 9]);
        // No link is closed.
        tries(&rt, &mut network, 5, true, [3, 0, 1, 9]);
        tries(&rt, &mut network, 65535, true, [3, 0, 1, 9]);
        classes(&rt, &network, [S, S, S, A, S], [1, 4, 0]);
        let mut bridge = opened(2, &[link(0, 1, 7)])?;
        tries(&rt, &mut bridge, 0, false, [9, 9, 9, 9]);
        tries(&rt, &mut bridge, 0, false, [9, 9, 9, 9]);
        tries(&rt, &mut bridge, 1, true, [0, 9, 9, 9]);
        // The empty row.
        tries(&rt, &mut opened(1, &[])?, 0, true, [9, 9, 9, 9]);
        Ok(())
    }

    #[test]
    fn questions_refused(rt: HostRuntime) -> Result<(), Fail> {
        let mut network = opened(4, &sample())?;
        assert_eq!(rt; outcome(network.class(5)), in_network(11, 5));
        assert_eq!(rt; outcome(network.can_try(5)), in_network(11, 5));
        assert_eq!(rt; outcome(network.can_try(4)), None);
        assert_eq!(rt; outcome(network.count_class('a')), in_network(12, 0));
        let mut two = [9; 2];
        assert_eq!(rt; outcome(network.trial(9, &mut two)), in_network(10, 2));
        assert_eq!(rt; two, [9; 2], "a refusal writes nothing");
        assert_eq!(rt; outcome(network.trial(9, &mut [9; 3])), None);
        let mut apart: Network<Metres> = opened(2, &[])?;
        assert_eq!(rt; outcome(apart.trial(0, &mut [])), in_network(10, 0));
        assert_eq!(rt; outcome(apart.trial(0, &mut [9])), in_network(15, 0));
        Ok(())
    }
}
