use crate::address_byte::AddressByte;
use crate::drive_model::DriveModel;
use crate::drive_shape::Shape;
use crate::numbering::round_trip;
use crate::place::Place;
use crate::rad_model::RadModel;
use std::test::Fail;

fn at(track: u32, sector: u32) -> Place {
    Place { track, sector }
}

#[test]
fn table_of_models(rt: HostRuntime) {
    let sds_7212 = Shape {
        tracks: 64,
        sectors_per_track: 82,
        tracks_per_switch: 4,
        ports: 1,
        most_units: 4,
        protect_bit: AddressByte::First,
    };
    let xerox_3214 = Shape {
        tracks: 256,
        sectors_per_track: 11,
        tracks_per_switch: 64,
        ports: 2,
        most_units: 8,
        protect_bit: AddressByte::Second,
    };
    let bench = Shape {
        tracks: 4,
        sectors_per_track: 5,
        tracks_per_switch: 2,
        ports: 2,
        most_units: 2,
        protect_bit: AddressByte::Second,
    };
    assert_eq!(rt; RadModel::Sds7212.shape(), sds_7212);
    assert_eq!(rt; RadModel::Xerox3214.shape(), xerox_3214);
    assert_eq!(rt; RadModel::Bench.shape(), bench);
}

#[test]
fn absent_places(rt: HostRuntime) {
    assert_eq!(rt; RadModel::Xerox3214.number(at(256, 0)), None);
    assert_eq!(rt; RadModel::Xerox3214.number(at(0, 11)), None);
    assert_eq!(rt; RadModel::Bench.number(at(4, 0)), None);
    assert_eq!(rt; RadModel::Bench.number(at(0, 5)), None);
    assert_eq!(rt; RadModel::Bench.place(20), None);
}

#[test]
fn places_of_the_bench(rt: HostRuntime) {
    assert_eq!(rt; RadModel::Bench.number(at(1, 0)), Some(5));
    assert_eq!(rt; RadModel::Bench.number(at(3, 4)), Some(19));
    assert_eq!(rt; RadModel::Bench.place(19), Some(at(3, 4)));
    assert_eq!(rt; round_trip(&RadModel::Bench, 19), Some(19));
    assert_eq!(rt; round_trip(&RadModel::Bench, 20), None);
}

#[test]
fn places_are_in_order_of_their_tracks(rt: HostRuntime) {
    assert!(rt; at(0, 4) < at(1, 0));
    assert!(rt; at(1, 0) < at(1, 4));
    assert_eq!(rt; Place::default(), at(0, 0));
}

#[test]
fn a_place_has_its_words(rt: HostRuntime) -> Result<(), Fail> {
    let words = at(3, 4).to_string(rt.alloc())?;
    assert_eq!(rt; words.as_str(), "(3, 4)");
    Ok(())
}

#[test]
fn switches(rt: HostRuntime) {
    assert_eq!(rt; RadModel::Sds7212.switch_of(3), Some(0));
    assert_eq!(rt; RadModel::Sds7212.switch_of(4), Some(1));
    assert_eq!(rt; RadModel::Bench.switch_of(1), Some(0));
    assert_eq!(rt; RadModel::Bench.switch_of(2), Some(1));
    assert_eq!(rt; RadModel::Bench.switch_of(4), None);
}
