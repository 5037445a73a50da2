//! The words of a seed.

use twister::{Twister, recurrences, words_in_order};

/// Seed, first twenty words and ten-thousandth word, as `std::mt19937` of GCC 12 gives them.
const VECTORS: [(u32, [u32; 20], u32); 4] = [
    (
        0,
        [
            2_357_136_044,
            2_546_248_239,
            3_071_714_933,
            3_626_093_760,
            2_588_848_963,
            3_684_848_379,
            2_340_255_427,
            3_638_918_503,
            1_819_583_497,
            2_678_185_683,
            2_774_094_101,
            1_650_906_866,
            1_879_422_756,
            1_277_901_399,
            3_830_135_878,
            243_580_376,
            4_138_900_056,
            1_171_049_868,
            1_646_868_794,
            2_051_556_033,
        ],
        1_543_171_712,
    ),
    (
        1,
        [
            1_791_095_845,
            4_282_876_139,
            3_093_770_124,
            4_005_303_368,
            491_263,
            550_290_313,
            1_298_508_491,
            4_290_846_341,
            630_311_759,
            1_013_994_432,
            396_591_248,
            1_703_301_249,
            799_981_516,
            1_666_063_943,
            1_484_172_013,
            2_876_537_340,
            1_704_103_302,
            4_018_109_721,
            2_314_200_242,
            3_634_877_716,
        ],
        1_237_896_635,
    ),
    (
        5_489,
        [
            3_499_211_612,
            581_869_302,
            3_890_346_734,
            3_586_334_585,
            545_404_204,
            4_161_255_391,
            3_922_919_429,
            949_333_985,
            2_715_962_298,
            1_323_567_403,
            418_932_835,
            2_350_294_565,
            1_196_140_740,
            809_094_426,
            2_348_838_239,
            4_264_392_720,
            4_112_460_519,
            4_279_768_804,
            4_144_164_697,
            4_156_218_106,
        ],
        4_123_659_995,
    ),
    (
        4_294_967_295,
        [
            419_326_371,
            479_346_978,
            3_918_654_476,
            2_416_749_639,
            3_388_880_820,
            2_260_532_800,
            3_350_089_942,
            3_309_765_114,
            77_050_329,
            1_217_888_032,
            4_163_996_287,
            2_166_321_787,
            2_547_668_722,
            2_987_145_323,
            627_568_395,
            3_003_590_858,
            3_905_736_219,
            733_371_533,
            2_378_279_350,
            2_804_808_791,
        ],
        1_117_955_853,
    ),
];

/// The next word, where one is left.
fn next(words: &mut Twister) -> Option<u32> {
    if words.drawn() < u64::MAX {
        Some(words.next_word())
    } else {
        None
    }
}

#[test]
fn words_of_a_seed(rt: HostRuntime) {
    for (seed, first, ten_thousandth) in VECTORS {
        recurrences(seed, 1, 0);
        words_in_order();
        let mut words = Twister::seeded(seed);
        for word in first {
            assert_eq!(rt; next(&mut words), Some(word), "of seed {seed}");
        }
        for _ in 20..9_999 {
            next(&mut words);
        }
        assert_eq!(rt; words.drawn(), 9_999);
        assert_eq!(rt; next(&mut words), Some(ten_thousandth), "of seed {seed}");
        let mut later = Twister::at(seed, 9_999);
        assert_eq!(rt; next(&mut later), Some(ten_thousandth), "of seed {seed}");
    }
}

#[test]
fn draws(rt: HostRuntime) {
    let mut dice = Twister::seeded(5489);
    assert_eq!(rt; dice.below(6), 1);
    assert_eq!(rt; dice.below(1), 0);
    assert_eq!(rt; dice.below(2_147_483_647), 1_742_863_087);
    assert_eq!(rt; dice.below(4_294_967_295), 1_438_850_938);
    assert_eq!(rt; dice.drawn(), 4);
    assert_eq!(rt; dice.next_word(), 545_404_204);
}
