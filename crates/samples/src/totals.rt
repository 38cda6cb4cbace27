//! Weights compared and added up.

#[cfg(test)]
pub mod tests {
    use crate::drawn::pair;
    use weights::{Crossings, Metres, Pair, WeightKind};

    #[test]
    fn first_side_decides(rt: HostRuntime) {
        let near = pair(0, 900);
        let far = pair(1, 10);
        assert!(rt; near.at_most(&far), "(0, 900) comes before (1, 10)");
        assert!(rt; !far.at_most(&near));
    }

    #[test]
    fn second_side_decides_where_the_first_are_equal(rt: HostRuntime) {
        let short = pair(3, 10);
        let long = pair(3, 11);
        assert!(rt; short.at_most(&long));
        assert!(rt; short.at_most(&short));
        assert!(rt; !long.at_most(&short));
    }

    #[test]
    fn sixty_three_are_held_and_no_more(rt: HostRuntime) {
        let most = pair(65535, 4294967295);
        let mut total = <Pair<Crossings, Metres>>::nothing();
        for _ in 0..64 {
            <Pair<Crossings, Metres>>::add(&mut total, most);
        }
        assert_eq!(rt; <Pair<Crossings, Metres>>::count(&total), 63);
        assert_eq!(rt; total.first().crossings(), 63 * 65535);
        assert_eq!(rt; total.second().metres(), 63 * 4294967295);
    }
}
