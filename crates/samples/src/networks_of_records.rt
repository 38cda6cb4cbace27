//! Records opened, ranked and priced.

#[cfg(test)]
pub mod tests {
    use crate::drawn::{link, pair, sample};
    use crate::outcomes::tests::{in_network, opened, outcome};
    use networks::{Link, Network, price};
    use std::test::Fail;
    use weights::Metres;

    #[test]
    fn ranks_follow_weights_and_then_numbers(rt: HostRuntime) -> Result<(), Fail> {
        let network = opened(4, &sample())?;
        assert_eq!(rt; network.sites(), 4);
        assert_eq!(rt; network.links(), sample().as_slice());
        assert_eq!(rt; network.ranking().numbers(), [3, 0, 1, 2, 4].as_slice());
        Ok(())
    }

    #[test]
    fn pairs_are_ranked_too(rt: HostRuntime) -> Result<(), Fail> {
        let links = [pair(1, 10), pair(0, 900), pair(1, 9)].map(|weight| Link {
            from: 0,
            to: 1,
            weight,
        });
        let network = opened(2, &links)?;
        assert_eq!(rt; network.ranking().numbers(), [1, 2, 0].as_slice());
        Ok(())
    }

    #[test]
    fn sites_are_one_to_sixty_four(rt: HostRuntime) {
        let none: [Link<Metres>; 0] = [];
        assert_eq!(rt; outcome(Network::open(0, &none)), in_network(5, 0));
        assert_eq!(rt; outcome(Network::open(1, &none)), None);
        assert_eq!(rt; outcome(Network::open(64, &none)), None);
        assert_eq!(rt; outcome(Network::open(65, &none)), in_network(5, 0));
        assert_eq!(rt; outcome(Network::open(255, &none)), in_network(5, 0));
    }

    #[test]
    fn links_are_at_most_512(rt: HostRuntime) {
        let links = [link(0, 1, 7); 513];
        assert_eq!(rt; outcome(Network::open(2, &links[0..512])), None);
        assert_eq!(rt; outcome(Network::open(2, &links)), in_network(6, 0));
        assert_eq!(rt;
            outcome(Network::open(65, &links)),
            in_network(5, 0),
            "sites are looked at first"
        );
    }

    #[test]
    fn first_faulty_link_decides(rt: HostRuntime) {
        assert_eq!(rt;
            outcome(Network::open(3, &[link(0, 2, 1), link(3, 0, 1)])),
            in_network(8, 1)
        );
        assert_eq!(rt;
            outcome(Network::open(3, &[link(0, 2, 1), link(0, 3, 1)])),
            in_network(8, 1)
        );
        assert_eq!(rt;
            outcome(Network::open(3, &[link(2, 2, 1), link(3, 0, 1)])),
            in_network(9, 0)
        );
        assert_eq!(rt;
            outcome(Network::open(3, &[link(3, 0, 1), link(2, 2, 1)])),
            in_network(8, 0)
        );
        assert_eq!(rt;
            outcome(Network::open(3, &[link(3, 3, 1)])),
            in_network(8, 0),
            "an end before equal ends"
        );
    }

    // The price of a row of the sample network.
    fn metres(row: &[u16]) -> Option<u64> {
        price(&sample(), row).ok().map(|total| total.metres())
    }

    #[test]
    fn prices_add_up_to_sixty_three_weights(rt: HostRuntime) {
        let links = sample();
        assert_eq!(rt; metres(&[0, 1, 4]), Some(6));
        assert_eq!(rt; metres(&[]), Some(0));
        assert_eq!(rt; outcome(price(&links, &[0, 4])), None);
        assert_eq!(rt; outcome(price(&links, &[0, 5, 9])), in_network(14, 1));
        assert_eq!(rt; outcome(price(&links, &[1; 63])), None);
        assert_eq!(rt; outcome(price(&links, &[1; 64])), in_network(14, 63));
        assert_eq!(rt; outcome(price(&links, &[1; 65])), in_network(14, 63));
    }
}
