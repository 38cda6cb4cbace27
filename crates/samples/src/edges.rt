//! Each refusal of a sheet at its lowest and highest edge.

#[cfg(test)]
pub mod tests {
    use crate::outcomes::tests::{outcome, refused};
    use networks::{Layer, Link, Report};
    use sheets::{read, write};
    use std::alloc::Global;
    use std::test::Fail;
    use weights::Metres;

    // A constant can call no function, so `link` does not make it.
    const BLANK: Link<Metres> = Link {
        from: 0,
        to: 1,
        weight: Metres(7),
    };

    // What reading these bytes into 512 places gives.
    fn reading(sheet: &[u8]) -> Option<Report> {
        let mut links = [BLANK; 512];
        outcome(read(sheet, &mut links))
    }

    #[test]
    fn headers(rt: HostRuntime) {
        let sheet = Layer::Sheet;
        assert_eq!(rt; reading(&[]), refused(sheet, 1, 0));
        assert_eq!(rt; reading(&[0, 0, 0, 5, 1, 87, 1, 0]), refused(sheet, 1, 8));
        assert_eq!(rt; reading(&[0, 0, 0, 5, 1, 87, 1, 0, 0]), None);
        assert_eq!(rt;
            reading(&[0, 0, 0, 4, 1, 87, 1, 0, 0]),
            refused(sheet, 2, 0)
        );
        assert_eq!(rt;
            reading(&[0, 0, 0, 6, 1, 87, 1, 0, 0]),
            refused(sheet, 2, 0)
        );
        assert_eq!(rt;
            reading(&[0, 0, 0, 5, 0, 87, 1, 0, 0]),
            refused(sheet, 3, 4)
        );
        assert_eq!(rt;
            reading(&[0, 0, 0, 5, 2, 87, 1, 0, 0]),
            refused(sheet, 3, 4)
        );
        assert_eq!(rt;
            reading(&[0, 0, 0, 5, 1, 80, 1, 0, 0]),
            refused(sheet, 4, 5)
        );
        assert_eq!(rt;
            reading(&[0, 0, 0, 5, 1, 87, 0, 0, 0]),
            refused(sheet, 5, 6)
        );
        assert_eq!(rt; reading(&[0, 0, 0, 5, 1, 87, 64, 0, 0]), None);
        assert_eq!(rt;
            reading(&[0, 0, 0, 5, 1, 87, 65, 0, 0]),
            refused(sheet, 5, 6)
        );
        assert_eq!(rt;
            reading(&[0, 0, 0, 5, 1, 87, 2, 0, 1]),
            refused(sheet, 7, 7)
        );
        assert_eq!(rt;
            reading(&[0, 0, 0, 5, 1, 87, 2, 2, 0]),
            refused(sheet, 7, 7)
        );
        assert_eq!(rt;
            reading(&[0, 0, 0, 5, 1, 87, 2, 2, 1]),
            refused(sheet, 6, 7)
        );
    }

    // A sheet of so many links, written into bytes that are all 255 before.
    fn written(heap: Global, count: usize, room: usize) -> Result<(Option<Report>, Vec<u8>), Fail> {
        let links = vec![in heap; BLANK; count]?;
        let mut bytes = vec![in heap; 255u8; room]?;
        let r = outcome(write(2, links.as_slice(), bytes.as_mut_slice()));
        Ok((r, bytes))
    }

    #[test]
    fn room_for_a_sheet(rt: HostRuntime) -> Result<(), Fail> {
        let heap = rt.alloc();
        let (r, bytes) = written(heap, 1, 14)?;
        assert_eq!(rt; r, refused(Layer::Sheet, 10, 14));
        assert_eq!(rt;
            bytes.as_slice(),
            [255; 14].as_slice(),
            "a refusal writes nothing"
        );
        let (r, bytes) = written(heap, 1, 16)?;
        assert_eq!(rt; r, None);
        assert_eq!(rt;
            bytes.as_slice(),
            [0, 0, 0, 11, 1, 87, 2, 0, 1, 0, 1, 0, 0, 0, 7, 255].as_slice()
        );
        let (r, _) = written(heap, 512, 9 + 512 * 6)?;
        assert_eq!(rt; r, None);
        let (r, _) = written(heap, 513, 4000)?;
        assert_eq!(rt; r, refused(Layer::Network, 6, 0));
        Ok(())
    }

    #[test]
    fn room_for_the_records(rt: HostRuntime) -> Result<(), Fail> {
        let heap = rt.alloc();
        let (_, bytes) = written(heap, 512, 9 + 512 * 6)?;
        let mut links = [BLANK; 512];
        assert_eq!(rt; outcome(read(bytes.as_slice(), &mut links)), None);
        let mut fewer = [BLANK; 511];
        assert_eq!(rt;
            outcome(read(bytes.as_slice(), &mut fewer)),
            refused(Layer::Sheet, 10, 511)
        );
        Ok(())
    }
}
