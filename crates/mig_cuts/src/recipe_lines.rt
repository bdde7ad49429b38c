// The recipes as text: what bench/recipes.cpp found, which tries all ways to join majorities of four inputs. Nothing
// depends on it: what a recipe computes is found where it is read, and again where it is used.

/// How many lines of recipes there are.
pub(crate) const LINES: usize = 45;

/// A line of recipes. Each is a word of letters, three for each step and one for the result: a is literal 0, the false
/// constant, b its complement, c the first leaf, and so on through four leaves and the steps before.
pub(crate) fn line(number: usize) -> &'static [u8] {
    match number {
        0 => b"aceagiakmo aceagkm cegceialmo aceagialmo acek aceceggikampq cegaikm acebcgfgiknoq ",
        1 => b"acebcgdeilmoq acebcgilmo aceagkbgkinoq aceagickmo acebceglmo acedegcgilmoq acebgkm ",
        2 =>
            b"cegdegclmaioq acecegagkinoq acecegilmo acecgiehilmoq aceagickno acebceagigikknoaqtu ",
        3 =>
            b"acebcebgkimoq aceacgceihikmpqs acebcecgilmoq cegceiahkknoq acecgialmo acecegaikgikmors ",
        4 => b"acegikm acebcgegiilmepqs acecegcgiknoq acedegikmo aceacgeikeincpqs acecegdeilmoq ",
        5 =>
            b"acecegagigikmors acecgibkmo acecgiehmiknaors cegdegaikcmpq acecegcikgjknoqs aceceggikimpq ",
        6 =>
            b"acecegdeggimkors acedegcgikmpq acecegdeigikmors cegcikm acecgiacmafmkpqs aceacgafgaiknoqs ",
        7 =>
            b"aceacgaeigikmors acebceagiagkmors acebcggikeimapqs acebcecgkgimapqs acebceacgbimloqs ",
        8 =>
            b"aceacgaeilmoq acedgkfikbmoq aceadeaeggikdiomqtu acebceacgaglilomqtu aceacgcikhikmpqs ",
        9 =>
            b"acebceacgilmloqs acecgkgikbimapqs aceadeacggikeimorsu aceacgfikknoq acedeggikaimcpqs ",
        10 => b"acebcebgkinoq aceagiagkajkmpqs aceacgcfgbioknqs acebceacgaikmors aceadeagilmoq ",
        11 =>
            b"acebceacgagiilmorsu aceacgdegilohmqs acebceacggikmors acebcgbeiknoq cegceiackajkmpqs ",
        12 => b"aceadecgihikmors aceacgceigikmors aceacgilmo acegikbcmfkmaors acebceacgaikhimorsu ",
        13 => b"acecegagkbiknoqs acecgiacmcfmkpqs acebceagihikmors aceacgcfgciknoqs acebcgegikmpq ",
        14 => b"aceagiagkgjkmpqs acecegdegknoq acecegdegeiknoqs cegk aceagiakmbkmapqs aceagibkmo ",
        15 =>
            b"aceacgbegfikeimoqtu aceagkdikgjknoqs aceacgcfgaiknoqs aceacgceilmoq acebceagicgiglmorsu ",
        16 => b"acebcgikmo aceacgaeggikfimorsu aceacggikhikmpqs acecgiakmbkmapqs acebceagkgikmors ",
        17 =>
            b"acebcggikhikmpqs aceagkgikdimcpqs acebcecgkgimhimorsu aceacgcfghiknoqs acebgkdikfmoq ",
        18 => b"aceacgceieinkpqs aceacgcfgeimkors acecgiagkajkmpqs aceacgafgknoq aceacgceiagpknqs ",
        19 => b"acebceacglmoq aceacgafgciknoqs acedegaimbimkpqs acebceacgcikmors aceadeglmo ",
        20 =>
            b"aceacgacihikmpqs aceacgafghiknoqs aceacgafggikikpmrsu acecegbikknoq aceacgbegdikinoarsu ",
        21 =>
            b"aceacgbegaioilomrsu aceacgbegilohmqs aceacgaeieinkpqs acebceacgeikmors aceacgaikhikmpqs ",
        22 => b"aceacgcfgknoq acebcegikgimapqs aceagigilcenaoqs acecegbgiaimkors acecegaimbimkpqs ",
        23 => b"acebceagilmoq acebcegikampq acebcegikgilalmorsu acebceceggikbiomqtu acebcealmgioq ",
        24 =>
            b"aceacgbeigikmors cegaikcikaennoqs acebceacggikeimorsu acebceagibgkmors aceceggikbimapqs ",
        25 =>
            b"acecgigilaencoqs aceacgaegdikjkmpqsu acebcghikeincpqs acebceagkgimapqs acecgifgiknoq ",
        26 => b"acecegcgiginkpqs acecegcgiailmpqs acecgidgiknoq acecegdegbiknoqs cegdegilmo ",
        27 => b"acecgibgkfioknqs acebceacgcgiilomrsu aceacgdeigikmors aceacgegieilmpqs ",
        28 => b"acebceacgegiilmorsu acecgiahmejmloqs aceacgbegcioilomrsu aceacgceieilmpqs ",
        29 =>
            b"acebcgcegikmiors aceacgfgigjknoqs acecegcikhikmpqs acebceagigikmors acecegbgigjknoqs ",
        30 =>
            b"aceagidgkfioknqs acebceacgbgiilomrsu acecegbgiknoq aceadegikgimcpqs acecegagiginkpqs ",
        31 =>
            b"aceagigikgknipqs aceceggikhikmpqs aceacgeikeilmpqs acegikdembkmcors acebcecegagiiknorsu ",
        32 =>
            b"acebcebgkhiknoqs acebceacghimloqs acebceacggikilmorsu aceacgcfgfioknqs acecegdgiaimkors ",
        33 => b"aceacgbegceiinokrsu acecgiacmaenloqs acecgiaemalmepqs aceadeacggikilmorsu ",
        34 => b"cegdeiaikajkmpqs aceagidgkfiknoqs cegceiaikbgmapqs acebceacgaiolmqs aceadecgilmoq ",
        35 =>
            b"aceadedgkhiknoqs aceagiagkgilnoqs acebcealmo cegdegdikamobmoarsu acecegagkaimbimorsu ",
        36 => b"cegdegaikailclmorsu acecegagkgikbimorsu acebceagkahkgimpqsu aceacgcfggikeinorsu ",
        37 => b"acecegceihikmpqs acedegcgiilmcpqs acecegcgigilmpqs aceacgegkgikfimorsu ",
        38 =>
            b"aceacgceggikfimorsu acecgiahkejolmqs aceadecgiagkjmoorsu acecegdegciknoqs cegdegceilmoq ",
        39 =>
            b"cegceiahkbiknoqs acecgigikgknipqs aceacgceidgilmocqtu acedeggikhikmpqs acebcgceijkmipqs ",
        40 => b"acebcebgkgimhimorsu aceacgaeigikcnogrsu aceacggikfimepqs acecegbikgjknoqs ",
        41 => b"acebcebgkimojmoirsu acebceagkaikhimorsu aceacgfgiknoq aceacgegiilmepqs ",
        42 => b"aceacgbegfikjkonqsu acecgibgkfiknoqs aceacgfikgjknoqs cegaikbikanoq cegceichiknoq ",
        43 => b"acebcgcfgfimjkmpqsu acebcgcegegijkmpqsu acecgicgkgilnoqs cegdeiakmbkmapqs ",
        44 => b"acebcgikmjkmipqs acegikhikgnoq cegdegclmo acebcealmgiohiogrsu ",
        _ => b"",
    }
}
