// The recipes of ands as text: several for many functions of four inputs, since forms that are not the smallest may
// share nodes with others. bench/and_recipes.cpp finds some 20,000 forms; these are the 369 that were used three times
// or more when the first forty of each class were tried on 45 netlists. Nothing depends on the text: what a recipe
// computes is found where it is read, and again where it is used.

/// How many lines of recipes there are.
pub(crate) const AND_LINES: usize = 62;

/// A line of recipes, in the letters of those of majorities: the first letter of each step is that of the constant.
pub(crate) fn and_line(number: usize) -> &'static [u8] {
    match number {
        0 =>
            b"aecajgamko ahcaifamko agdaifamko ahdaifamko agcajfamko ahcajfamko agdajfamko ahdajfamko ",
        1 =>
            b"aedaigamko afdaigamko aheaicamko aedajgamko afdajgamko aecaihamko afcaihamko aedaihamko ",
        2 =>
            b"afdaihamko aecajhamko afcajhamko aedajhamko afdajhamko ahdajeamko ageajcamko aheajcamko ",
        3 =>
            b"agfajcamko ahfajcamko ageaidamko aheaidamko agfaidamko ahfaidamko aheajdamko ageajdamko ",
        4 =>
            b"agcaifamko agdajeamko ahfakdm ahdakjm ageakcm ageakdm aheakcm aheakdm agfakcm agfakdm ",
        5 =>
            b"ahfakcm aicakem aicakgm aicakhm ajcakem ajcakfm ajcakgm ajcakhm aidakem aidakfm aidakgm ",
        6 =>
            b"aidakhm aecakhm aecakim aecakjm afcakgm afcakhm afcakim afcakjm aedakgm aedakhm agdajeamlo ",
        7 =>
            b"ahcajfamlo ahfajcamlo ageaicamlo aheaicanko aheaicamlo agfaicanko agfaicamlo ahfaicanko ",
        8 =>
            b"ahfaicamlo ageajcanko ageajcamlo afck ahfk aick aedk afdk agck ahck agdk ahdk agek ahek ",
        9 =>
            b"agfk afdalfm agcalcm agcalgm ahcalcm ahcalhm agdaldm agdalgm ahdaldm ahcagdaleanjaqps ",
        10 =>
            b"aecafdalhanjaqps afcaedaljanhaqps afcaedalganiaros afcaedalganiaqps aedagealhanjaqps ",
        11 =>
            b"aedahcaljaonq aecajdalhaonq aecaifalhaonq aecajfalhaonq aecagdaliaonq aecahdaliaonq ",
        12 =>
            b"aecalgakhanjaqps afdaliakjangaqps afdakialjanhaqps afdakialjangaqps afdakgalhapjaqns ",
        13 =>
            b"afdakgalhapiaqns afdalgakhapjaqns afdalgakhapiaqns ahcalianfo ahdaleanjo ahdalfanio ",
        14 =>
            b"ahdalfanjo afcaljanho aecalganjo aecalhanio aecalhanjo aecaliango aecalianho aecaljango ",
        15 =>
            b"aecaljanho afcalganio afcalganjo ageahfandaolq ageahfalcaonq afcaedaljaonq afcaedangaolq ",
        16 =>
            b"afcaedanhaolq aecafdakhanjaqps afcaedalhamiaros ahfaldm aidalhm afdaljm aecalhm aecalim ",
        17 => b"aecaljm afcalgm afcalhm afcalim afcaljm aedalgm aedalhm agcahdaifanfaqlasoatpavxy ",
        18 =>
            b"ahcagdanjaolares ahcagdaniaolarfs ahcagdaniaolares ahcakianfo agcakeanio agdakeanio ",
        19 =>
            b"agdakeanjo agdakfanio agdakfanjo agdakjanfo ahdakeanio ahdakeanjo ahdakfanio ahdakfanjo ",
        20 =>
            b"afcakjanho aecakganjo aecakhanio aecakhanjo aecakiango aecakianho aecakjango aecakjanho ",
        21 =>
            b"afcakganio afcakganjo c aheagfajcaplarns ageahfaidaolarns ageahfajdaplarns ageahfajdaolarns ",
        22 =>
            b"ageaicajdapkarns agfaicajdanlarps aecafdalhamiaonatru aecafdalhakiarnaspu afcagcalhanjarps ",
        23 =>
            b"aecafdaljaniaphatru afdagcakjamiarps afcaedakiamgarps aecagdakhamiarps afcaedakgamiarps ",
        24 => b"afcaedaicapganlasru ageahfajdapkaomatru ahfaicajdamlaokatru ageahfaicapkaomatru ",
        25 => b"aheaicameanlarps ageaicamganlarps agfajcakdamlarps agfajcamhankarps afcajgakhapnq ",
        26 =>
            b"aecaihaljapnq afcaidakgapnq afcajgalhapnq afcajgakiapnq afcajhakiapnq afcajgaliapnq ",
        27 =>
            b"afcajhaliapnq afcaheakjapnq aecajgalhapnq aecajdakgapnq aecaifakgapnq aecajfakgapnq ",
        28 =>
            b"aecaihakgapnq aecajhakgapnq aecaihalgapnq aecajhalgapnq aecaidakhapnq aecajdakhapnq ",
        29 => b"aedahdaljapnq aecahcaliapnq ahfaicaneamkarps ageajcaljankarps agfajcalcankarps ",
        30 =>
            b"ageaicanhamkarps ahcalfakjapnq aecakgaliapnq aecakhaliapnq aecalgakjapnq aecalhakjapnq ",
        31 =>
            b"aecakgaljapnq aecakhaljapnq afcalgakiapnq afcalhakiapnq ageakcamianjaprs ageakdamianjaprs ",
        32 =>
            b"aheakcamianjaprs aheakdamianjaprs agfakcamianjaprs agfakdamianjaprs ahfakcamianjaprs ",
        33 =>
            b"ajcakhameanfaprs aidakeamganhaprs aidakfamganhaprs aidakgameanfaprs aidakhameanfaprs ",
        34 =>
            b"aecakjamganhaprs afcakgamianjaprs afcakhamianjaprs afcakiamganhaprs afcakjamganhaprs ",
        35 => b"aedakgamianjaprs aedakhamianjaprs agcahdanjaokaplartu ajcaidalfapnq agcahdanjaplq ",
        36 =>
            b"afcajhamkanlaprs ageaicankamlarps agfaicankamlarps ahfaicankamlarps ageajcankamlarps ",
        37 =>
            b"aheajcankamlarps aheaicamkanlaprs agfaicamkanlaprs ahfaicamkanlaprs ageajcamkanlaprs ",
        38 =>
            b"aheajcamkanlaprs agfajcamkanlaprs ahfajcamkanlaprs ageaidamkanlaprs aheaidamkanlaprs ",
        39 =>
            b"aecajganlo agfajcanlo ahfajcanlo ageaidanlo aheaidanlo agfaidanlo ahfaidanlo aheajdanlo ",
        40 => b"ageajdanlo agcaifanlo agdajeanlo aedahcaljaomapnartu aecagdaliaomapnartu ",
        41 =>
            b"aecahdaliaomapnartu ageagfaicaljaonatru aheahfaicandaolatru aedahcaljapnq aecahdaliapnq ",
        42 => b"ahcagdalianjarps agcahdaleanfarps afcaedamhaplq afcajdakiapnq afcajcaliapnq ",
        43 =>
            b"agfajcajhankarps ajdaieanlo afcageanlo afdageanlo aecafdalgakhanhasjarpawvy ahfakcaldapnq ",
        44 =>
            b"afdakialjapnq aecaliakjapnq aecakialjapnq afcalgakhapnq afcakgalhapnq afcaliakjapnq ",
        45 =>
            b"afcakialjapnq aedalgakhapnq aedakgalhapnq agcahdajeaifanlarpausw ahcagdajeaifanlarpausw ",
        46 =>
            b"aecafdajgaihanlarpausw afcaedajgaihanlarpausw aecafdajgaihapnarlausw agcahdaieajfanlarpausw ",
        47 =>
            b"ahcagdaieajfanlarpavtw ageahfajcaidapnarlausw ageahfaicajdanlarpavtw agcahdaifanlaqps ",
        48 => b"ageahfaidanlarps aecafdanlaohapjatru ajcaidanlapfaohatru ajcaidanlapeaohatru ",
        49 =>
            b"ajcaidanlaofapgatru ahcajeaifaolarns aidalgameanfaprs afdaljamganhaprs aecalhamianjaprs ",
        50 =>
            b"aecaliamganhaprs aecaljamganhaprs afcalgamianjaprs afcalhamianjaprs afcaliamganhaprs ",
        51 =>
            b"afcaljamganhaprs aedalgamianjaprs aedalhamianjaprs aecafdanlo afcaedajfanganlaqpathaxvy ",
        52 =>
            b"agcahdanjaplaqearfatvw ajdaieanlaogaphartu aecaidanlaogaphartu ageaifanlaocapdartu ",
        53 =>
            b"afcageanlaoiapjartu afdageanlaoiapjartu ahcagdajeanlaqoarpatvw ahcagdajfanlaqoarpatvw ",
        54 =>
            b"agcahdajeanlaqoarpatvw agcahdaieanlaqoarpatvw ageajcaidapnaqkarlatvw ageahfaidanlaqoarpatvw ",
        55 => b"ahcagdanlapeaofatru aheagfanlaocapdatru agcahdanlaoiapjatru agcahdanlaoeapfatru ",
        56 => b"afcaedanlaogaphatru afcaedanlaoiapjartu ajcaidanlaoeapfatru ageahfanlaoiapjatru ",
        57 => b"ageahfanlaocapdatru ageahfanlapcaodatru aheagfanlaoiapjatru afcaedanlaogaphartu ",
        58 => b"aigajhanlaoeapfartu aigajhanlaocapdartu aecafdaigajhanlarpausavtaxz{ ",
        59 =>
            b"afcaedaigajhanlarpausavtaxz{ afcaedajgaihanlarpausavtaxz{ agcahdaieajfanlarpausavtaxz{ ",
        60 =>
            b"agcahdajeaifanlarpausavtaxz{ ahcagdajeaifanlarpausavtaxz{ ageahfaicajdanlarpausavtaxz{ ",
        61 => b"aheagfaicajdanlarpausavtaxz{ ahcagdaieajfanlarpausavtaxz{ ",
        _ => b"",
    }
}
